// The keys that an instrument made, and their points.
ghost use Rattle.std.specs.Prelude.{◌≡◌, ℕ, ◌+◌, ◌^◌, ◌<◌, ◌∷◌, [], ◌++◌, length, IfOk, OnErr, IsTrue, if◌then◌else◌};
ghost use Rattle.std.specs.Int.{w64, to_be_bytes};
ghost use Rattle.signature_provider.specs.Key.{is_form, is_elliptic};
ghost use Rattle.signature_provider.specs.Provider.{public_key, viewed_key, same_key, HoldsMore, MakesKey};
ghost use Rattle.signature_provider.specs.Instruments.{numbered_point, is_among};
ghost use Rattle.signature_provider.specs.declared.key.Algorithm.{Algorithm};

use crate::table_signature::number_of;
use crate::{Algorithm, Key, KeyForm, KeyView};
use eac_base::{NoMemory, Octets, is_same};
use std::alloc::Global;
use std::marker::Model;

/// A key that is kept without its cofactor.
#[derive(Debug, Drop)]
pub(crate) struct KeptKey {
    algorithm: Algorithm,
    domain: Octets,
    point: Octets,
}

impl Model for KeptKey {
    ghost use Rattle.signature_provider.specs.Provider.{PublicKey};

    ghost Value = { PublicKey };

    ghost view = { λ k. record { algorithm = k.algorithm; domain = k.domain; point = k.point } };
}

impl KeptKey {
    /// A copy of what is seen.
    pub(crate) fn of(alloc: Global, key: KeyView) -> Result<KeptKey, NoMemory>
        ensures { IfOk result (λ kept. kept ≡ viewed_key key.entry) }
    {
        Ok(KeptKey {
            algorithm: key.algorithm,
            domain: Octets::from_slice(alloc, key.domain)?,
            point: Octets::from_slice(alloc, key.point)?,
        })
    }

    /// Whether it is this key.
    pub(crate) fn is(&self, key: KeyView) -> bool
        ensures { result ≡ same_key self.now (viewed_key key.entry) }
    {
        self.algorithm == key.algorithm
            && is_same(self.domain.as_slice(), key.domain)
            && is_same(self.point.as_slice(), key.point)
    }
}

/// The keys that were made, in order. Their points are their numbers, from 1.
#[derive(Debug, Drop)]
pub(crate) struct MadeKeys {
    keys: Vec<KeptKey>,
}

impl Model for MadeKeys {
    ghost use Rattle.std.specs.Prelude.{List};
    ghost use Rattle.signature_provider.specs.Provider.{PublicKey};
    ghost use Rattle.signature_provider.specs.Instruments.{AreNumbered};

    ghost Value = { List PublicKey };

    ghost view = { λ m. m.keys.items };

    ghost invariant = { λ m. AreNumbered 1 m.keys.items };
}

// The point of the key of this number.
fn point_of(alloc: Global, algorithm: Algorithm, number: u64) -> Result<Octets, NoMemory>
    ensures { IfOk result (λ point. point ≡ numbered_point algorithm number) }
{
    let digits = number.to_be_bytes();
    if algorithm.is_elliptic() {
        return Octets::from_slice(alloc, &digits);
    }
    let mut point = Octets::from_slice(alloc, &[0x81, 8])?;
    point.push_all(&digits)?;
    point.push_all(&[0x82, 1, 3])?;
    Ok(point)
}

// The number of the key whose point it is, and 0 where no key has such a point.
fn number_in(point: &[u8]) -> u64
    ensures { (algorithm : Algorithm) (number : ℕ) → number < 2 ^ 64
        → point.now ≡ numbered_point algorithm number → result ≡ number }
{
    match point.len() {
        8 => number_of(point),
        13 => number_of(&point[2..10]),
        _ => 0,
    }
}

// The key of this form and number.
fn key_of(alloc: Global, like: &KeyForm, number: u64) -> Result<Key, NoMemory>
    ensures algorithm { IfOk result (λ key. key.algorithm ≡ like.now.algorithm) }
    ensures domain { IfOk result (λ key. key.domain ≡ like.now.domain) }
    ensures cofactor { IfOk result (λ key. key.cofactor ≡ like.now.cofactor) }
    ensures point { IfOk result (λ key. key.point ≡ numbered_point like.now.algorithm number) }
{
    Ok(Key {
        algorithm: like.algorithm,
        domain: Octets::from_slice(alloc, like.domain.as_slice())?,
        point: point_of(alloc, like.algorithm, number)?,
        cofactor: Octets::from_slice(alloc, like.cofactor.as_slice())?,
    })
}

impl MadeKeys {
    /// No keys yet.
    pub(crate) fn new(alloc: Global) -> MadeKeys
        ensures { result ≡ [] }
    {
        MadeKeys {
            keys: Vec::new(alloc),
        }
    }

    /// Whether the key is one of them. It is compared with the one that has its point's number.
    pub(crate) fn has(&self, key: KeyView) -> bool
        ensures { result ≡ is_among self.now (viewed_key key.entry) }
    {
        let number = number_in(key.point);
        if number == 0 || (self.keys.len() as u64) < number {
            return false;
        }
        self.keys[(number - 1) as usize].is(key)
    }

    /// Makes the next key, or leaves them as they are where memory is wanting.
    pub(crate) fn make(&mut self, alloc: Global, like: &KeyForm) -> Result<Key, NoMemory>
        requires { IsTrue (is_form like.now) }
        ensures made { IfOk result (MakesKey (is_among self.old) (is_among self.new) like.now) }
        ensures numbered { IfOk result (λ key. key.point ≡ numbered_point like.now.algorithm (length self.old + 1)) }
        ensures added { IfOk result (λ key. self.new ≡ self.old ++ public_key key ∷ []) }
        ensures kept { OnErr result (self.new ≡ self.old) }
        ensures holds { HoldsMore (is_among self.old) (is_among self.new) }
    {
        let number = self.keys.len() as u64 + 1;
        let key = key_of(alloc, like, number)?;
        let kept = KeptKey::of(alloc, key.view())?;
        self.keys.push(kept)?;
        Ok(key)
    }
}
