// New keys and signatures: each call of the provider by itself.
ghost use Rattle.std.specs.Prelude.{◌≡◌, IfOk, IsTrue, false};
ghost use Rattle.signature_provider.specs.Key.{is_form};
ghost use Rattle.signature_provider.specs.Provider.{MakesKey, public_key};
ghost use Rattle.holder_core.specs.Faults.{NoneMissing};
ghost use Rattle.holder_core.specs.Signing.{IsSignature, ProviderCaused, SignsOnce, StaysTrue};

use crate::HolderFault;
use eac_base::Octets;
use holder_reference::Reference;
use signature_provider::{Key, KeyForm, SignRefusal, SignatureProvider};
use std::alloc::Global;

/// Makes a key of this form.
pub fn make_key<P: SignatureProvider>(
    alloc: Global,
    form: &KeyForm,
    provider: &mut P,
) -> Result<Key, HolderFault>
    requires { IsTrue (is_form form.now) }
    ensures made { IfOk result (MakesKey (P.holds provider.old) (P.holds provider.new) form.now) }
    ensures signed { P.signed provider.new ≡ P.signed provider.old }
    ensures provider { StaysTrue (P.says provider.old) (P.says provider.new) (P.holds provider.old)
        (P.holds provider.new) (P.signed provider.old) (P.signed provider.new) }
    ensures cause { ProviderCaused NoneMissing (P.faults provider.old) (P.faults provider.new) result }
{
    match provider.new_key(alloc, form) {
        Ok(key) => Ok(key),
        Err(SignRefusal::NoKey) => unreachable!(),
        Err(SignRefusal::Failed) => Err(HolderFault::ProviderFault),
        Err(SignRefusal::NoMemory) => Err(HolderFault::NoMemory),
    }
}

/// Signs the message with the key of the row of this reference.
pub fn sign<P: SignatureProvider>(
    alloc: Global,
    key: &Key,
    reference: Reference,
    message: &[u8],
    provider: &mut P,
) -> Result<Octets, HolderFault>
    ensures made { IfOk result (IsSignature (P.says provider.new) (P.holds provider.new) (public_key key.now)
        message.now) }
    ensures signed { SignsOnce (P.signed provider.old, P.signed provider.new) (public_key key.now, message.now) result }
    ensures provider { StaysTrue (P.says provider.old) (P.says provider.new) (P.holds provider.old)
        (P.holds provider.new) (P.signed provider.old) (P.signed provider.new) }
    ensures cause { ProviderCaused (λ r. (P.holds provider.old (public_key key.now) ≡ false) × (r ≡ reference))
        (P.faults provider.old) (P.faults provider.new) result }
{
    match provider.sign(alloc, key, message) {
        Ok(signature) => Ok(signature),
        Err(SignRefusal::NoKey) => Err(HolderFault::NoKey(reference)),
        Err(SignRefusal::Failed) => Err(HolderFault::ProviderFault),
        Err(SignRefusal::NoMemory) => Err(HolderFault::NoMemory),
    }
}
