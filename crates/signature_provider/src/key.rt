// What names a key, and what a new key is made like.
ghost use Rattle.std.specs.Prelude.{◌≡◌};
ghost use Rattle.signature_provider.specs.Key as words;

use eac_base::Octets;

/// The last two numbers of an identifier below the arc of terminal authentication, 0.4.0.127.0.7.2.2.2
/// (BSI TR-03110-3, object identifiers of terminal authentication).
#[derive(Clone, Copy, Debug, PartialEq, Eq)]
pub struct Algorithm {
    /// 1 is RSA, 2 is ECDSA.
    pub arc: u8,
    /// The hash and the padding, 0 to 127: 3 below ECDSA is SHA-256.
    pub last: u8,
}

impl Algorithm {
    /// Whether its keys are elliptic, so that they have a domain.
    pub fn is_elliptic(&self) -> bool
        ensures { result ≡ words.is_elliptic self.now }
    {
        self.arc == 2
    }
}

/// A public key. Two keys are the same where algorithm, domain and point are the same: the cofactor is carried along.
#[derive(Debug, Drop)]
pub struct Key {
    pub algorithm: Algorithm,
    /// The encoding of the objects 81 to 85 of an elliptic key (prime, both coefficients, base point, order), or empty.
    pub domain: Octets,
    /// The content of the object 86 of an elliptic key; the encoding of the objects 81 and 82 (modulus, exponent) of an
    /// RSA key.
    pub point: Octets,
    /// The encoding of the object 87 of an elliptic key, or empty.
    pub cofactor: Octets,
}

/// What a new key is made like: all of a key but its point.
#[derive(Debug, Drop)]
pub struct KeyForm {
    pub algorithm: Algorithm,
    pub domain: Octets,
    pub cofactor: Octets,
}

/// What tells a key from others, in borrowed bytes.
#[derive(Clone, Copy, Debug)]
pub struct KeyView<'a> {
    pub algorithm: Algorithm,
    pub domain: &'a [u8],
    pub point: &'a [u8],
}

/// The kinds of keys that an authority is set up with.
#[derive(Clone, Copy, Debug, PartialEq, Eq)]
pub enum FormName {
    /// Elliptic curves.
    Ec,
    /// RSA.
    Rsa,
}
