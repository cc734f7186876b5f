// The row of an own certificate.
ghost use Rattle.std.specs.Prelude.{◌≡◌, Some, IsTrue};
ghost use Rattle.eac_base.specs.Telling.{Told};
ghost use Rattle.signature_provider.specs.Key.{is_form};
ghost use Rattle.holder_core.specs.Faults.{HolderCause};
ghost use Rattle.holder_core.specs.Signers.{missing_of};
ghost use Rattle.holder_core.specs.Signing.{StaysTrue};
ghost use Rattle.cvca_desk.specs.OwnCertificate as words;
ghost use Rattle.cvca_desk.specs.Entering.{AsksAdded, Enters};

use crate::due::{Due, issuer_of, own_template};
use crate::making::{MadeOwn, made_certificate};
use eac_base::Octets;
use holder_core::{Added, HolderFault, add_row};
use keeper::{Keeper, OwnPart, Part, Row, Settled};
use signature_provider::SignatureProvider;
use std::alloc::Global;

// Its own row: it has no request, and is asked from the authority itself.
fn own_row(alloc: Global, desk: u32, due: &Due, made: MadeOwn) -> Row
    ensures { result ≡ words.own_row desk due.now made.text made.key }
{
    let MadeOwn { text, key } = made;
    let settled = Settled {
        certificate: text,
        issuer: issuer_of(due),
        template: own_template(due),
        from: due.days.0,
        until: due.days.1,
    };
    Row {
        desk,
        reference: due.reference,
        part: Part::Own(OwnPart {
            authority: due.terms.holder,
            request: Octets::new(alloc),
            key,
            settled: Some(settled),
        }),
    }
}

/// Makes the certificate that is due and adds its row, as the last outside call.
pub fn enter<B: Keeper, P: SignatureProvider>(
    alloc: Global,
    desk: u32,
    due: &Due,
    keeper: &mut B,
    provider: &mut P,
) -> Result<Added, HolderFault>
    requires { IsTrue (is_form due.now.form) }
    ensures told { Told (B.rows keeper.old) (B.rows keeper.new) (λ before after. Enters (P.says provider.new)
        (P.holds provider.old) (P.holds provider.new) (P.signed provider.old, P.signed provider.new) desk due.now
        before after
        result) }
    ensures asked { AsksAdded (P.says provider.new) (P.holds provider.old) (P.holds provider.new) (
      P.signed provider.old,
      P.signed
          provider.new,
    ) due.now result }
    ensures provider { StaysTrue (P.says provider.old) (P.says provider.new) (P.holds provider.old) (P.holds
        provider.new) (P.signed provider.old) (P.signed provider.new) }
    ensures cause { HolderCause (λ r. missing_of (P.holds provider.old) due.now.by ≡ Some r) (
      B.faults keeper.old,
      B.faults
          keeper.new,
    ) (P.faults provider.old, P.faults provider.new) result }
{
    let made = made_certificate(alloc, due, provider)?;
    let row = own_row(alloc, desk, due, made);
    add_row(alloc, &row, keeper)
}
