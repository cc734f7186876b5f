// The instrument whose signatures are digests.
ghost use Rattle.std.specs.Prelude.{◌≡◌, ◌≢◌, ◌+◌, [], ◌∷◌, ◌++◌, length, Err, IfOk, OnErr, IsTrue, true, is_ok};
ghost use Rattle.eac_base.specs.Causes.{HasCause};
ghost use Rattle.signature_provider.specs.declared.provider.SignRefusal.TheVariants.{NoKey};
ghost use Rattle.signature_provider.specs.Key.{is_form};
ghost use Rattle.signature_provider.specs.Provider.{public_key, viewed_key, SaysMore, HoldsMore, KeepsHonest};
ghost use Rattle.signature_provider.specs.Provider.{MakesKey, Signs, SignCause, HeldWhere, UnheldFirst};
ghost use Rattle.signature_provider.specs.Instruments.{numbered_point, is_among, digest_signature, digest_says, untold};
ghost use Rattle.signature_provider.specs.Instruments as words;

use crate::made_keys::MadeKeys;
use crate::{Key, KeyForm, KeyView, SignRefusal, SignatureProvider};
use eac_base::{Failed, NoMemory, Octets, is_same};
use sha2::{Digest, Sha256};
use std::alloc::Global;
use std::marker::Model;

/// Signs by a digest over a secret, the key and the message. It needs no table, so what it says it says from the
/// start, also for keys that it hasn't made. It doesn't tell what it signed, and never fails. It isn't printed, for its
/// secret.
#[derive(Drop)]
pub struct DigestProvider {
    secret: [u8; 32],
    keys: MadeKeys,
}

impl Model for DigestProvider {
    ghost use Rattle.signature_provider.specs.Instruments.{DigestValue};

    ghost Value = { DigestValue };

    ghost view = { λ d. record { secret = d.secret; keys = d.keys } };
}

impl DigestProvider {
    /// With this secret, and no keys yet.
    pub fn new(alloc: Global, secret: [u8; 32]) -> DigestProvider
        ensures secret { result.secret ≡ secret }
        ensures keys { result.keys ≡ [] }
    {
        DigestProvider {
            secret,
            keys: MadeKeys::new(alloc),
        }
    }
}

// A length in 4 bytes, the highest first.
fn length_in_four(bytes: &[u8]) -> [u8; 4]
    ensures { result ≡ words.length_in_four bytes.now }
{
    ((bytes.len() % 4_294_967_296) as u32).to_be_bytes()
}

// The signature of a message in two pieces.
fn digest(secret: &[u8; 32], key: KeyView, first: &[u8], second: &[u8]) -> [u8; 32]
    ensures digest { result ≡ digest_signature secret.now (viewed_key key.entry) (first.now ++ second.now) }
{
    let mut hasher = Sha256::new();
    hasher.update(secret.as_slice());
    hasher.update([key.algorithm.arc, key.algorithm.last].as_slice());
    hasher.update(length_in_four(key.domain).as_slice());
    hasher.update(key.domain);
    hasher.update(length_in_four(key.point).as_slice());
    hasher.update(key.point);
    hasher.update(first);
    hasher.update(second);
    hasher.finalize()
}

// The signature of a message, which is good.
fn sign_by(alloc: Global, secret: &[u8; 32], key: &Key, message: &[u8]) -> Result<Octets, NoMemory>
    ensures made { IfOk result (Signs (digest_says secret.now) untold untold (public_key key.now) message.now) }
    ensures digest { IfOk result
        (λ signature. signature ≡ digest_signature secret.now (public_key key.now) message.now) }
{
    let signature = digest(secret, key.view(), &[], message);
    Octets::from_slice(alloc, signature.as_slice())
}

impl SignatureProvider for DigestProvider {
    ghost says = { λ d. digest_says d.secret };

    ghost holds = { λ d. is_among d.keys };

    ghost signed = { λ d. untold };

    ghost faults = { λ d. 0 };

    fn new_key(&mut self, alloc: Global, like: &KeyForm) -> Result<Key, SignRefusal>
        requires { IsTrue (is_form like.now) }
        ensures made { IfOk result (MakesKey (is_among self.old.keys) (is_among self.new.keys) like.now) }
        ensures says { SaysMore (digest_says self.old.secret) (digest_says self.new.secret) }
        ensures holds { HoldsMore (is_among self.old.keys) (is_among self.new.keys) }
        ensures signed { untold ≡ untold }
        ensures honest { KeepsHonest (digest_says self.old.secret) untold (digest_says self.new.secret) untold }
        ensures cause { SignCause 0 0 result }
        ensures key { result ≢ Err NoKey }
        // Its keys are numbered in the order of making.
        ensures numbered { IfOk result
            (λ key. key.point ≡ numbered_point like.now.algorithm (length self.old.keys + 1)) }
        ensures added { IfOk result (λ key. self.new.keys ≡ self.old.keys ++ public_key key ∷ []) }
        ensures kept { OnErr result (self.new ≡ self.old) }
        ensures secret { self.new.secret ≡ self.old.secret }
    {
        Ok(self.keys.make(alloc, like)?)
    }

    fn sign(&mut self, alloc: Global, key: &Key, message: &[u8]) -> Result<Octets, SignRefusal>
        ensures made { IfOk result
            (Signs (digest_says self.new.secret) untold untold (public_key key.now) message.now) }
        ensures says { SaysMore (digest_says self.old.secret) (digest_says self.new.secret) }
        ensures holds { HoldsMore (is_among self.old.keys) (is_among self.new.keys) }
        ensures refused { OnErr result (untold ≡ untold) }
        ensures honest { KeepsHonest (digest_says self.old.secret) untold (digest_says self.new.secret) untold }
        ensures cause { SignCause 0 0 result }
        ensures key { HeldWhere (is_among self.old.keys (public_key key.now)) result }
        ensures unheld { UnheldFirst (is_among self.old.keys (public_key key.now)) result }
        // The signature is the digest, and nothing changes.
        ensures digest { IfOk result
            (λ signature. signature ≡ digest_signature self.old.secret (public_key key.now) message.now) }
        ensures unchanged { self.new ≡ self.old }
    {
        if !self.keys.has(key.view()) {
            return Err(SignRefusal::NoKey);
        }
        Ok(sign_by(alloc, &self.secret, key, message)?)
    }

    fn verify(
        &mut self,
        key: KeyView,
        first: &[u8],
        second: &[u8],
        signature: &[u8],
    ) -> Result<bool, Failed>
        ensures answer { IfOk result
            (λ yes. yes ≡ digest_says self.old.secret (viewed_key key.entry) (first.now ++ second.now) signature.now) }
        ensures says { digest_says self.new.secret ≡ digest_says self.old.secret }
        ensures holds { is_among self.new.keys ≡ is_among self.old.keys }
        ensures signed { untold ≡ untold }
        ensures cause { HasCause 0 0 result }
        // It never fails, and changes nothing.
        ensures answers { is_ok result ≡ true }
        ensures unchanged { self.new ≡ self.old }
    {
        let digest = digest(&self.secret, key, first, second);
        Ok(is_same(signature, digest.as_slice()))
    }
}
