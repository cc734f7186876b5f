// Keys in borrowed bytes, and the identifiers of their algorithms.
ghost use Rattle.std.specs.Prelude.{◌≡◌};
ghost use Rattle.signature_provider.specs.Key.{algorithm_identifier};

pub mod copy;
mod parts;
pub mod view;
pub mod writing;

use signature_provider::{Algorithm, KeyView};

/// A key and its cofactor, in borrowed bytes.
#[derive(Clone, Copy)]
pub struct KeyParts<'a> {
    pub key: KeyView<'a>,
    /// The encoding of the object 87, or empty.
    pub cofactor: &'a [u8],
}

/// The content of the object 06 of a key: 0.4.0.127.0.7.2.2.2 and the algorithm's two numbers.
pub fn identifier_of(algorithm: Algorithm) -> [u8; 10]
    ensures { result ≡ algorithm_identifier algorithm }
{
    [
        0x04,
        0x00,
        0x7f,
        0x00,
        0x07,
        0x02,
        0x02,
        0x02,
        algorithm.arc,
        algorithm.last,
    ]
}
