// What stands in front of a content.
ghost use Rattle.std.specs.Prelude.{◌≡◌, ◌<◌, ◌≤◌, ◌++◌, ◌∷◌, IsTrue};
ghost use Rattle.std.specs.Prelude.{length as len_of};
ghost use Rattle.tlv_core.specs.Object.{is_tag, tag_bytes, length_bytes, IsHead};

use crate::Tag;
use std::marker::Model;

/// The tag and the length of an object: 2 to 5 bytes, seen as their list.
#[derive(Clone, Copy, Debug, PartialEq, Eq)]
pub struct Head {
    bytes: [u8; 5],
    len: usize,
}

impl Model for Head {
    ghost use Rattle.std.specs.Prelude.{List, ℕ, take, length, ◌-◌, ◌++◌, ◌≡◌, ◌≤◌, replicate};

    ghost Value = { List ℕ };

    ghost view = { λ h. take h.len h.bytes };

    ghost invariant = { λ h. (2 ≤ h.len) × (h.len ≤ 5) × (length h.bytes ≡ 5)
        × (h.bytes ≡ take h.len h.bytes ++ replicate (5 - h.len) 0) };

    ghost inverse = { λ bytes. record { bytes = bytes ++ replicate (5 - length bytes) 0; len = length bytes } };
}

impl Head {
    /// The bytes.
    pub fn as_slice(&self) -> &[u8]
        ensures bytes { result.now ≡ self.now }
        ensures least { 2 ≤ len_of self.now }
        ensures most { len_of self.now ≤ 5 }
    {
        &self.bytes[..self.len]
    }
}

/// The head with a tag of one byte.
fn short_head(tag: u8, size: u16) -> Head
    ensures { result ≡ tag ∷ length_bytes size }
{
    if size < 128 {
        Head {
            bytes: [tag, size as u8, 0, 0, 0],
            len: 2,
        }
    } else if size < 256 {
        Head {
            bytes: [tag, 0x81, size as u8, 0, 0],
            len: 3,
        }
    } else {
        Head {
            bytes: [tag, 0x82, (size / 256) as u8, (size % 256) as u8, 0],
            len: 4,
        }
    }
}

/// The head with a tag of two bytes.
fn long_head(first: u8, second: u8, size: u16) -> Head
    ensures { result ≡ first ∷ second ∷ length_bytes size }
{
    if size < 128 {
        Head {
            bytes: [first, second, size as u8, 0, 0],
            len: 3,
        }
    } else if size < 256 {
        Head {
            bytes: [first, second, 0x81, size as u8, 0],
            len: 4,
        }
    } else {
        Head {
            bytes: [first, second, 0x82, (size / 256) as u8, (size % 256) as u8],
            len: 5,
        }
    }
}

/// The tag and the length of an object whose content has `length` bytes. The writer appends the content.
pub fn object_head(tag: Tag, length: u64) -> Head
    requires tag { IsTrue (is_tag tag) }
    requires length { length < 65536 }
    ensures bytes { result ≡ tag_bytes tag ++ length_bytes length }
    ensures head { IsHead tag length result }
{
    let size = length as u16;
    if tag < 256 {
        short_head(tag as u8, size)
    } else {
        long_head((tag / 256) as u8, (tag % 256) as u8, size)
    }
}
