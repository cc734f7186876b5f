// The making of the certificate that is due.
ghost use Rattle.std.specs.Prelude.{◌≡◌, ◌++◌, ◌≤◌, length, IfOk, Ok, IsTrue};
ghost use Rattle.holder_reference.specs.Reference.{is_reference};
ghost use Rattle.signature_provider.specs.Provider.{public_key};
ghost use Rattle.cvc_grammar.specs.Request.{IsLegalRequest};
ghost use Rattle.cvc_grammar.specs.RequestViews.{seen_request};
ghost use Rattle.cvc_grammar.specs.Certificate.{IsLegalBody, IsLegalCert, IsBody, IsCert};
ghost use Rattle.issue_core.specs.Issuing.Due.{due_body};
ghost use Rattle.issue_core.specs.Issuing.Readings.{cert_message};
ghost use Rattle.issue_core.specs.Issuing.Rows.{settled_of};
ghost use Rattle.issue_core.specs.Issuing.Causes.{MakeCaused, StaysTrue};
ghost use Rattle.issue_core.specs.Issuing.Calls.{IsMade, IsSigned};
ghost use Rattle.issue_core.specs.Issuing.Signed.{SignsOnce, MakeSigns};

use crate::IssueFault;
use crate::issuing::asked_key::bare_key;
use crate::issuing::signer_row::Signer;
use chat_rights::{Kind, Template, meet};
use cv_dates::Day;
use cvc_grammar::{CertBody, RequestView, finish_cert, write_body};
use eac_base::{NoMemory, Octets};
use holder_reference::Reference;
use keeper::Settled;
use policy_limits::Registration;
use signature_provider::{SignRefusal, SignatureProvider};
use std::alloc::Global;

/// A certificate that was made, with what its row settles.
#[derive(Debug, Drop)]
pub struct Made {
    pub text: Octets,
    pub settled: Settled,
}

// A reference is in its grammar, as its type keeps.
fn keeps_its_grammar(reference: &Reference)
    ensures { IsTrue (is_reference reference.now) }
{
    reference.as_slice();
}

// The body that is due.
fn due(
    alloc: Global,
    view: &RequestView,
    registration: &Registration,
    signer: &Signer,
    days: (Day, Day),
) -> Result<CertBody, NoMemory>
    ensures { IfOk result (λ b. b ≡ due_body (seen_request view.now) registration.now signer.now days) }
{
    Ok(CertBody {
        authority: signer.reference,
        key: bare_key(alloc, view)?,
        holder: view.holder,
        template: Template {
            kind: Kind::Inspection,
            role: registration.role,
            rights: meet(registration.rights, signer.settled.template.rights),
        },
        from: days.0,
        until: days.1,
        extensions: None,
    })
}

// The row keeps a copy of the text, since the answer has the text itself.
fn settled_by(alloc: Global, text: &Octets, body: &CertBody) -> Result<Settled, NoMemory>
    ensures { IfOk result (λ s. s ≡ settled_of text.now body.now) }
{
    Ok(Settled {
        certificate: Octets::from_slice(alloc, text.as_slice())?,
        issuer: body.authority,
        template: body.template,
        from: body.from,
        until: body.until,
    })
}

// Signs the text of the body.
fn sign_body<P: SignatureProvider>(
    alloc: Global,
    body: &CertBody,
    text: &[u8],
    signer: &Signer,
    provider: &mut P,
) -> Result<Octets, IssueFault>
    requires { IsBody body.now text.now }
    ensures made { IfOk result (IsSigned (P.says provider.new) (P.holds provider.old) signer.now body.now) }
    ensures signed { SignsOnce (P.signed provider.old, P.signed provider.new)
        (public_key signer.now.key, cert_message body.now) result }
    ensures provider { StaysTrue (P.says provider.old) (P.says provider.new) (P.holds provider.old)
        (P.holds provider.new) (P.signed provider.old) (P.signed provider.new) }
    ensures cause { MakeCaused (P.faults provider.old) (P.faults provider.new)
        (P.holds provider.old (public_key signer.now.key)) signer.now.reference result }
{
    match provider.sign(alloc, &signer.key, text) {
        Ok(signature) => Ok(signature),
        Err(SignRefusal::NoKey) => Err(IssueFault::NoKey(signer.reference)),
        Err(SignRefusal::Failed) => Err(IssueFault::ProviderFault),
        Err(SignRefusal::NoMemory) => Err(IssueFault::NoMemory),
    }
}

// The certificate of a body's text and its signature.
fn finish(alloc: Global, body: &CertBody, text: &[u8], signature: &[u8]) -> Result<Made, NoMemory>
    requires text { IsBody body.now text.now }
    requires legal { IsLegalCert (record { body = body.now; signature = signature.now }) }
    ensures text { IfOk result (λ m. IsCert (record { body = body.now; signature = signature.now }) m.text) }
    ensures settled { IfOk result (λ m. m.settled ≡ settled_of m.text body.now) }
{
    let text = finish_cert(alloc, text, signature)?;
    let settled = settled_by(alloc, &text, body)?;
    Ok(Made { text, settled })
}

/// Makes the certificate that is due: its body, signed with the key of the row that signs.
pub fn make<P: SignatureProvider>(
    alloc: Global,
    view: &RequestView,
    registration: &Registration,
    signer: &Signer,
    days: (Day, Day),
    provider: &mut P,
) -> Result<Made, IssueFault>
    requires { IsLegalRequest (seen_request view.now) }
    ensures made { IfOk result (IsMade (P.says provider.new) (P.holds provider.old (public_key signer.now.key))
        (seen_request view.now) registration.now signer.now days) }
    // What was signed is the body, by the key of the row that signs, also where memory is wanting for the certificate.
    ensures signed { MakeSigns (P.signed provider.old, P.signed provider.new)
        (public_key signer.now.key, cert_message (due_body (seen_request view.now) registration.now signer.now days))
        result }
    ensures provider { StaysTrue (P.says provider.old) (P.says provider.new) (P.holds provider.old)
        (P.holds provider.new) (P.signed provider.old) (P.signed provider.new) }
    ensures cause { MakeCaused (P.faults provider.old) (P.faults provider.new)
        (P.holds provider.old (public_key signer.now.key)) signer.now.reference result }
{
    keeps_its_grammar(&signer.reference);
    keeps_its_grammar(&view.holder);
    let body = due(alloc, view, registration, signer, days)?;
    let text = write_body(alloc, &body)?;
    let signature = sign_body(alloc, &body, text.as_slice(), signer, provider)?;
    Ok(finish(alloc, &body, text.as_slice(), signature.as_slice())?)
}
