// Keys that lie in the chip's own values.
ghost use Rattle.std.specs.Prelude.{◌≡◌, ◌≤◌, length};
ghost use Rattle.signature_provider.specs.Provider.{viewed_key};

use arrayvec::ArrayVec;
use signature_provider::{Algorithm, KeyView};
use std::marker::Model;

/// A key as a chip keeps it, seen as a key without its cofactor. A key of a certificate has at most 1,024 bytes, and so
/// has each part of it.
#[derive(Debug, Drop)]
pub struct ChipKey {
    pub algorithm: Algorithm,
    /// The encoding of the objects 81 to 85 of an elliptic key, or empty.
    pub domain: ArrayVec<u8, 1024>,
    /// The content of the object 86 of an elliptic key; the encoding of the objects 81 and 82 of an RSA key.
    pub point: ArrayVec<u8, 1024>,
}

impl Model for ChipKey {
    ghost use Rattle.signature_provider.specs.Provider.{PublicKey};

    ghost Value = { PublicKey };

    ghost view = { λ k. record { algorithm = k.algorithm; domain = k.domain.items; point = k.point.items } };
}

// The bytes, kept in the value.
fn kept(bytes: &[u8]) -> ArrayVec<u8, 1024>
    requires { length bytes.now ≤ 1024 }
    ensures { result.items ≡ bytes.now }
{
    let mut kept = ArrayVec::new();
    let _ = kept.try_extend_from_slice(bytes);
    kept
}

impl ChipKey {
    /// The key of these parts.
    pub fn of(key: KeyView) -> ChipKey
        requires domain { length key.domain.now ≤ 1024 }
        requires point { length key.point.now ≤ 1024 }
        ensures { result ≡ viewed_key key.entry }
    {
        ChipKey {
            algorithm: key.algorithm,
            domain: kept(key.domain),
            point: kept(key.point),
        }
    }

    /// The key in borrowed bytes.
    pub fn view(&self) -> KeyView<'_>
        ensures key { viewed_key result ≡ self.now }
        ensures domain { length self.now.domain ≤ 1024 }
        ensures point { length self.now.point ≤ 1024 }
    {
        KeyView {
            algorithm: self.algorithm,
            domain: self.domain.as_slice(),
            point: self.point.as_slice(),
        }
    }

    /// The same key once more.
    pub fn copied(&self) -> ChipKey
        ensures { result ≡ self.now }
    {
        ChipKey::of(self.view())
    }
}
