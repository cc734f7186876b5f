//! Data objects: the tag, length and content that certificates and requests are built of.
//!
//! The encoding is the one of BSI TR-03110-3, appendix D (the distinguished encoding rules of ITU-T X.690): each tag
//! and content have one spelling. This project's own bounds are tags of one or two bytes and contents of at most
//! 65,535 bytes.
//!
//! `next_object` reads the object at the front of an input, or answers the first step of reading that fails.
//! `object_head` writes what stands in front of a content. What was written is read again, and what was read is
//! written again: the functions of `laws` say so. No call takes memory.
//!
//! Which tags stand where, and what a content means, is left to the layers above.
#![tactic(auto)]

ghost use Rattle.std.specs.Prelude.{◌≡◌};
ghost use Rattle.tlv_core.specs.Object.{refusal_number};

mod head;
pub mod laws;
mod reading;
#[cfg(test)]
mod tests;

pub use head::{Head, object_head};
pub use reading::next_object;
use std::error::Error;
use std::fmt;

/// A tag of one byte, or of two with the first one as the higher.
pub type Tag = u16;

/// Why no object stands at the front of an input: the first step of reading that fails.
#[derive(Clone, Copy, Debug, PartialEq, Eq)]
pub enum TlvRefusal {
    /// The input ends within the tag, the length or the content.
    Truncated,
    /// The second byte of a tag is below 1F or above 7F.
    BadTag,
    /// The length is of no definite form, or stands in a longer form than it needs.
    BadLength,
    /// The length has three bytes or more behind its first one.
    LongLength,
}

impl TlvRefusal {
    /// 1 to 4, in the order of the variants.
    pub fn number(&self) -> u8
        ensures { result ≡ refusal_number self.now }
    {
        match self {
            TlvRefusal::Truncated => 1,
            TlvRefusal::BadTag => 2,
            TlvRefusal::BadLength => 3,
            TlvRefusal::LongLength => 4,
        }
    }
}

impl fmt::Display for TlvRefusal {
    fn fmt<W: fmt::Write>(&self, f: &mut fmt::Formatter<W>) -> fmt::Result {
        f.write_str(match self {
            TlvRefusal::Truncated => "the input ends within an object",
            TlvRefusal::BadTag => "a tag's second byte isn't 1F to 7F",
            TlvRefusal::BadLength => "a length isn't in its shortest definite form",
            TlvRefusal::LongLength => "a length has more than two bytes",
        })
    }
}

impl Error for TlvRefusal {}
