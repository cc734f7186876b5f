// What makes keys, signs and verifies.
ghost use Rattle.std.specs.Prelude.{◌≡◌, ◌≢◌, ℕ, List, ◌++◌, Bool, Err, IfOk, OnErr, IsTrue};
ghost use Rattle.std.specs.declared.option.Option.{Option};
ghost use Rattle.eac_base.specs.Causes.{HasCause};
ghost use Rattle.signature_provider.specs.declared.provider.SignRefusal.TheVariants.{NoKey};
ghost use Rattle.signature_provider.specs.Key.{is_form};
ghost use Rattle.signature_provider.specs.Provider.{PublicKey, public_key, viewed_key, MakesKey, Signs};
ghost use Rattle.signature_provider.specs.Provider.{SaysMore, HoldsMore, KeepsHonest, SignCause, HeldWhere};

use crate::{Key, KeyForm, KeyView};
use eac_base::{Failed, NoMemory, Octets};
use std::alloc::Global;
use std::error::Error;
use std::fmt;

/// Why no key was made, or nothing was signed.
#[derive(Clone, Copy, Debug, PartialEq, Eq)]
pub enum SignRefusal {
    /// The provider doesn't hold the key.
    NoKey,
    /// The provider failed, and has counted it.
    Failed,
    /// Memory is wanting.
    NoMemory,
}

impl fmt::Display for SignRefusal {
    fn fmt<W: fmt::Write>(&self, f: &mut fmt::Formatter<W>) -> fmt::Result {
        f.write_str(match self {
            SignRefusal::NoKey => "the provider doesn't hold this key",
            SignRefusal::Failed => "the provider of signatures failed",
            SignRefusal::NoMemory => "out of memory",
        })
    }
}

impl Error for SignRefusal {}

impl From<NoMemory> for SignRefusal {
    ghost use Rattle.signature_provider.specs.declared.provider.SignRefusal.{SignRefusal};

    ghost from_gives = { λ _ refusal. refusal ≡ SignRefusal.NoMemory };

    fn from(_: NoMemory) -> Self {
        SignRefusal::NoMemory
    }
}

/// Whatever makes keys, signs and verifies. It is honest where it tells what it signed and calls no other signature
/// good; each call keeps it so.
pub trait SignatureProvider {
    /// Whether it calls a signature good, by key, message and signature. A signature that is good once stays so.
    ghost says: { Self → PublicKey → List ℕ → List ℕ → Bool };

    /// Whether it can sign with a key. A key that is held once stays so.
    ghost holds: { Self → PublicKey → Bool };

    /// The pairs of key and message that it signed, in order, where it tells them.
    ghost signed: { Self → Option (List (PublicKey × List ℕ)) };

    /// How often a call has failed. The count never falls and stays at its last value.
    ghost faults: { Self → ℕ };

    /// Makes a key of this form, which is held from then on. Its point differs from that of each key held before, and
    /// its whole data object has at most 1,024 bytes.
    ///
    /// # Errors
    ///
    /// `Failed` only where the count of faults rose in this call or stands at its last value, and `NoMemory`. `NoKey`
    /// never comes. Any other answer than `Failed` leaves the count.
    fn new_key(&mut self, alloc: Global, like: &KeyForm) -> Result<Key, SignRefusal>
        requires { IsTrue (is_form like.now) }
        ensures made { IfOk result (MakesKey (holds self.old) (holds self.new) like.now) }
        ensures says { SaysMore (says self.old) (says self.new) }
        ensures holds { HoldsMore (holds self.old) (holds self.new) }
        ensures signed { signed self.new ≡ signed self.old }
        ensures honest { KeepsHonest (says self.old) (signed self.old) (says self.new) (signed self.new) }
        ensures cause { SignCause (faults self.old) (faults self.new) result }
        ensures key { result ≢ Err NoKey };

    /// Signs the message. The signature has 1 to 512 bytes and is good for key and message from then on.
    ///
    /// # Errors
    ///
    /// `Failed` only where the count of faults rose in this call or stands at its last value. Else `NoKey` exactly
    /// where the key isn't held, unless memory was wanting first, and `NoMemory`. What was signed stays as it was then.
    /// Any other answer than `Failed` leaves the count.
    fn sign(&mut self, alloc: Global, key: &Key, message: &[u8]) -> Result<Octets, SignRefusal>
        ensures made { IfOk result
            (Signs (says self.new) (signed self.old) (signed self.new) (public_key key.now) message.now) }
        ensures says { SaysMore (says self.old) (says self.new) }
        ensures holds { HoldsMore (holds self.old) (holds self.new) }
        ensures refused { OnErr result (signed self.new ≡ signed self.old) }
        ensures honest { KeepsHonest (says self.old) (signed self.old) (says self.new) (signed self.new) }
        ensures cause { SignCause (faults self.old) (faults self.new) result }
        ensures key { HeldWhere (holds self.old (public_key key.now)) result };

    /// Whether the signature is good for the key and the message, which is `first` and then `second`. It changes
    /// nothing but the count of faults, and takes no memory.
    ///
    /// # Errors
    ///
    /// [`Failed`] only where the count of faults rose in this call or stands at its last value. An Ok leaves the count.
    fn verify(
        &mut self,
        key: KeyView,
        first: &[u8],
        second: &[u8],
        signature: &[u8],
    ) -> Result<bool, Failed>
        ensures answer { IfOk result
            (λ yes. yes ≡ says self.old (viewed_key key.entry) (first.now ++ second.now) signature.now) }
        ensures says { says self.new ≡ says self.old }
        ensures holds { holds self.new ≡ holds self.old }
        ensures signed { signed self.new ≡ signed self.old }
        ensures cause { HasCause (faults self.old) (faults self.new) result };
}
