// What follows from a certificate.
ghost use Rattle.std.specs.Prelude.{◌≡◌, ◌≢◌, IfOk, OnErr};
ghost use Rattle.eac_base.specs.Causes.{HasCause};
ghost use Rattle.cvc_grammar.specs.Views.{seen_cert};
ghost use Rattle.chip_verify.specs.declared.answers.Checked.TheVariants as checks;
ghost use Rattle.chip_verify.specs.Refusals.{checked};
ghost use Rattle.chip_verify.specs.Step.{Judges, Moves, Stands, Stores, verdict_on};
ghost use Rattle.chip_verify.specs.Views.{IsView, MayBeTaken, seen_body, seen_issuer};

use crate::checking::{Weighed, weigh};
use crate::issuer::Voucher;
use crate::next::next;
use crate::{ChipState, ImportRefusal, Judged, Session};
use cvc_grammar::CertView;
use eac_base::Failed;
use signature_provider::SignatureProvider;

// What the provider's verdict makes of a certificate that may be taken.
fn judge_signature<P: SignatureProvider>(
    state: &ChipState,
    session: &Session,
    cert: &CertView,
    issuer: Voucher,
    provider: &mut P,
) -> Result<Judged, Failed>
    requires view { IsView cert.now }
    requires taken { MayBeTaken state.now session.now (seen_body cert.now) (seen_issuer issuer) }
    ensures judged { IfOk result (Judges (P.says provider.old) state.now session.now (seen_cert cert.now)) }
    ensures says { P.says provider.new ≡ P.says provider.old }
    ensures holds { P.holds provider.new ≡ P.holds provider.old }
    ensures signed { P.signed provider.new ≡ P.signed provider.old }
    ensures cause { HasCause (P.faults provider.old) (P.faults provider.new) result }
{
    let good = provider.verify(issuer.key().view(), cert.body, &[], cert.signature)?;
    if good {
        Ok(next(state, session, cert, issuer))
    } else {
        Ok(Judged::Refused(ImportRefusal::Signature))
    }
}

/// What a certificate is found to be by all rows of the table, and what follows where it is taken.
///
/// The provider is asked for its signature over the whole body, by the issuer's key, exactly where
/// [`check`](crate::check) answers `Ask`. Nothing is stored.
///
/// # Errors
///
/// [`Failed`] only where the provider was asked, and its count of faults rose in this call or stands at its last value.
pub fn judge<P: SignatureProvider>(
    state: &ChipState,
    session: &Session,
    cert: &CertView,
    provider: &mut P,
) -> Result<Judged, Failed>
    requires { IsView cert.now }
    ensures judged { IfOk result (Judges (P.says provider.old) state.now session.now (seen_cert cert.now)) }
    ensures failed { OnErr result (checked state.now session.now (seen_body cert.now) ≡ checks.Ask) }
    ensures unasked { checked state.now session.now (seen_body cert.now) ≢ checks.Ask → provider.new ≡ provider.old }
    ensures says { P.says provider.new ≡ P.says provider.old }
    ensures holds { P.holds provider.new ≡ P.holds provider.old }
    ensures signed { P.signed provider.new ≡ P.signed provider.old }
    ensures cause { HasCause (P.faults provider.old) (P.faults provider.new) result }
{
    match weigh(state, session, cert) {
        Weighed::Held => Ok(Judged::Held),
        Weighed::Refused(refusal) => Ok(Judged::Refused(refusal)),
        Weighed::Ask(issuer) => judge_signature(state, session, cert, issuer, provider),
    }
}

// Puts in place what follows.
fn store(state: &mut ChipState, session: &mut Session, judged: &Judged)
    ensures { Stores state.old session.old judged.now state.new session.new }
{
    match judged {
        Judged::Held | Judged::Refused(_) => {}
        Judged::Next {
            state: next,
            session: after,
            what: _,
        } => {
            *state = next.copied();
            *session = after.copied();
        }
    }
}

/// Judges a certificate, and stores what follows where it is taken. Else nothing changes.
///
/// # Errors
///
/// Those of [`judge`]; then nothing changes.
pub fn import<P: SignatureProvider>(
    state: &mut ChipState,
    session: &mut Session,
    cert: &CertView,
    provider: &mut P,
) -> Result<Judged, Failed>
    requires { IsView cert.now }
    ensures judged { IfOk result (Judges (P.says provider.old) state.old session.old (seen_cert cert.now)) }
    ensures stored { IfOk result (λ judged. Stores state.old session.old judged state.new session.new) }
    ensures moves { IfOk result (λ _. Moves state.old session.old (seen_body cert.now)
        (verdict_on (P.says provider.old) state.old session.old (seen_cert cert.now)) state.new session.new) }
    ensures kept { OnErr result (Stands state.old session.old state.new session.new) }
    ensures failed { OnErr result (checked state.old session.old (seen_body cert.now) ≡ checks.Ask) }
    ensures unasked { checked state.old session.old (seen_body cert.now) ≢ checks.Ask → provider.new ≡ provider.old }
    ensures says { P.says provider.new ≡ P.says provider.old }
    ensures holds { P.holds provider.new ≡ P.holds provider.old }
    ensures signed { P.signed provider.new ≡ P.signed provider.old }
    ensures cause { HasCause (P.faults provider.old) (P.faults provider.new) result }
{
    match judge(state, session, cert, provider) {
        Err(failed) => Err(failed),
        Ok(judged) => {
            store(state, session, &judged);
            Ok(judged)
        }
    }
}
