// The making of an own certificate: a new key, its body, and the signature over it.
ghost use Rattle.std.specs.Prelude.{◌≡◌, None, Some, IfOk, IsTrue};
ghost use Rattle.holder_reference.specs.Reference.{is_reference};
ghost use Rattle.signature_provider.specs.Key.{is_form};
ghost use Rattle.signature_provider.specs.Provider.{public_key};
ghost use Rattle.cvc_grammar.specs.Certificate.{is_key_of_body};
ghost use Rattle.holder_core.specs.Signers.{missing_of};
ghost use Rattle.holder_core.specs.Signing.{IsSignature, ProviderCaused, SignsOnce, StaysTrue};
ghost use Rattle.cvca_desk.specs.OwnCertificate.{signing_key};
ghost use Rattle.cvca_desk.specs.Entering.{IsCertified, SignsBody, Makes};

use crate::due::{Due, own_body};
use cvc_grammar::{CertBody, finish_cert, write_body};
use eac_base::Octets;
use holder_core::{HolderFault, make_key, sign};
use holder_reference::Reference;
use signature_provider::{Key, SignatureProvider};
use std::alloc::Global;

/// An own certificate that was made, with its key.
#[derive(Debug, Drop)]
pub struct MadeOwn {
    pub text: Octets,
    pub key: Key,
}

// A reference is in its grammar, as its type keeps.
fn stands(reference: &Reference)
    ensures { IsTrue (is_reference reference.now) }
{
    reference.as_slice();
}

// Signs the message with the key of the own row that signs, or with this new key.
fn sign_own<P: SignatureProvider>(
    alloc: Global,
    due: &Due,
    key: &Key,
    message: &[u8],
    provider: &mut P,
) -> Result<Octets, HolderFault>
    requires held { IsTrue (P.holds provider.old (public_key key.now)) }
    ensures made { IfOk result (IsSignature (P.says provider.new) (P.holds provider.new) (signing_key key.now
        due.now.by) message.now) }
    ensures signed { SignsOnce (P.signed provider.old, P.signed provider.new) (
      signing_key key.now due.now.by,
      message.now,
    ) result }
    ensures provider { StaysTrue (P.says provider.old) (P.says provider.new) (P.holds provider.old) (P.holds
        provider.new) (P.signed provider.old) (P.signed provider.new) }
    ensures cause { ProviderCaused (λ r. missing_of (P.holds provider.old) due.now.by ≡ Some r) (P.faults provider.old)
        (P.faults provider.new) result }
{
    match &due.by {
        Some(signing) => sign(alloc, signing.key, signing.reference, message, provider),
        None => sign(alloc, key, due.reference, message, provider),
    }
}

// The certificate of this body.
fn certify<P: SignatureProvider>(
    alloc: Global,
    due: &Due,
    body: &CertBody,
    provider: &mut P,
) -> Result<Octets, HolderFault>
    requires key { IsTrue (is_key_of_body body.now) }
    requires authority { IsTrue (is_reference body.now.authority) }
    requires holder { IsTrue (is_reference body.now.holder) }
    requires bare { body.now.extensions ≡ None }
    requires held { IsTrue (P.holds provider.old (public_key body.now.key)) }
    ensures made { IfOk result (IsCertified (P.says provider.new) (P.holds provider.new) due.now.by body.now) }
    ensures signed { SignsBody (P.signed provider.old, P.signed provider.new) due.now.by body.now result }
    ensures provider { StaysTrue (P.says provider.old) (P.says provider.new) (P.holds provider.old) (P.holds
        provider.new) (P.signed provider.old) (P.signed provider.new) }
    ensures cause { ProviderCaused (λ r. missing_of (P.holds provider.old) due.now.by ≡ Some r) (P.faults provider.old)
        (P.faults provider.new) result }
{
    let Ok(text) = write_body(alloc, body) else {
        return Err(HolderFault::NoMemory);
    };
    let signature = sign_own(alloc, due, &body.key, text.as_slice(), provider)?;
    match finish_cert(alloc, text.as_slice(), signature.as_slice()) {
        Ok(bytes) => Ok(bytes),
        Err(_) => Err(HolderFault::NoMemory),
    }
}

/// Makes the certificate that is due, for a new key.
pub fn made_certificate<P: SignatureProvider>(
    alloc: Global,
    due: &Due,
    provider: &mut P,
) -> Result<MadeOwn, HolderFault>
    requires { IsTrue (is_form due.now.form) }
    ensures made { Makes (P.says provider.new) (P.holds provider.old) (P.holds provider.new) (
      P.signed provider.old,
      P.signed
          provider.new,
    ) due.now result }
    ensures provider { StaysTrue (P.says provider.old) (P.says provider.new) (P.holds provider.old) (P.holds
        provider.new) (P.signed provider.old) (P.signed provider.new) }
    ensures cause { ProviderCaused (λ r. missing_of (P.holds provider.old) due.now.by ≡ Some r) (P.faults provider.old)
        (P.faults provider.new) result }
{
    let key = make_key(alloc, &due.form, provider)?;
    let body = own_body(due, key);
    stands(&body.authority);
    stands(&body.holder);
    let text = certify(alloc, due, &body, provider)?;
    let CertBody {
        authority: _,
        key,
        holder: _,
        template: _,
        from: _,
        until: _,
        extensions: _,
    } = body;
    Ok(MadeOwn { text, key })
}
