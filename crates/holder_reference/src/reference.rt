// A reference as a value of fixed size.
ghost use Rattle.std.specs.Prelude.{◌≡◌, ◌++◌, Some, IfOk, IfErr, IsTrue, ◌↔◌, is_ok};
ghost use Rattle.std.specs.Str.{bytes_eq};
ghost use Rattle.eac_base.specs.Answers.{Answers};
ghost use Rattle.holder_reference.specs.Reference as text;
ghost use Rattle.holder_reference.specs.Refused.{IsRefused};

use crate::holder::{Holder, keep_holder};
use crate::parts::{are_digits_or_capitals, are_printed, has_country};
use crate::refusal::RefRefusal;
use crate::sequence::{Sequence, keep_sequence};
use std::marker::Model;

/// The reference of a holder or of an authority: 8 to 16 bytes, seen as their list. Each is legal.
#[derive(Clone, Copy, Debug, PartialEq, Eq)]
pub struct Reference {
    // zeros from `len` on, so that equal references are equal arrays
    bytes: [u8; 16],
    len: usize,
}

impl Model for Reference {
    ghost use Rattle.std.specs.Prelude.{List, ℕ, take, length, ◌-◌, ◌++◌, ◌≡◌, ◌≤◌, replicate, IsTrue};
    ghost use Rattle.holder_reference.specs.Reference.{is_reference};

    ghost Value = { List ℕ };

    ghost view = { λ r. take r.len r.bytes };

    ghost invariant = { λ r. (r.len ≤ 16) × (length r.bytes ≡ 16)
        × (r.bytes ≡ take r.len r.bytes ++ replicate (16 - r.len) 0)
        × IsTrue (is_reference (take r.len r.bytes)) };

    ghost inverse = { λ bytes. record { bytes = bytes ++ replicate (16 - length bytes) 0; len = length bytes } };
}

/// Reads a reference. It is refused by the first condition that the bytes break, in the order of `RefRefusal`: the
/// length, the country, the mnemonic, the sequence.
pub fn read_reference(bytes: &[u8]) -> Result<Reference, RefRefusal>
    ensures exact { Answers (λ r. r) (λ e. Some e) result (text.read_reference bytes.now) }
    ensures found { IfOk result (λ r. (r ≡ bytes.now) × IsTrue (text.is_reference bytes.now)) }
    ensures whole { is_ok result ≡ text.is_reference bytes.now }
    ensures refused { IfErr result (λ e. IsRefused bytes.now e) }
{
    let len = bytes.len();
    if len < 8 || 16 < len {
        return Err(RefRefusal::Length);
    }
    let (holder, sequence) = bytes.split_at(len - 5);
    if !has_country(holder) {
        return Err(RefRefusal::Country);
    }
    let (_, mnemonic) = holder.split_at(2);
    if !are_printed(mnemonic) {
        return Err(RefRefusal::Mnemonic);
    }
    if !are_digits_or_capitals(sequence) {
        return Err(RefRefusal::Sequence);
    }
    Ok(keep_reference(bytes))
}

/// The reference of the holder with this sequence behind it.
pub fn join(holder: &Holder, sequence: &Sequence) -> Reference
    ensures { result ≡ holder.now ++ sequence.now }
{
    let (holder, sequence) = (holder.as_slice(), sequence.as_slice());
    let mut joined = [0u8; 16];
    joined[..holder.len()].copy_from_slice(holder);
    joined[holder.len()..holder.len() + 5].copy_from_slice(sequence);
    keep_reference(&joined[..holder.len() + 5])
}

/// The tested bytes, kept.
fn keep_reference(bytes: &[u8]) -> Reference
    requires { IsTrue (text.is_reference bytes.now) }
    ensures { result ≡ bytes.now }
{
    let mut kept = [0u8; 16];
    kept[..bytes.len()].copy_from_slice(bytes);
    Reference {
        bytes: kept,
        len: bytes.len(),
    }
}

impl Reference {
    /// The bytes of the reference.
    pub fn as_slice(&self) -> &[u8]
        ensures bytes { result.now ≡ self.now }
        ensures legal { IsTrue (text.is_reference self.now) }
    {
        &self.bytes[..self.len]
    }

    /// Who holds it: all but the last five bytes.
    pub fn holder(&self) -> Holder
        ensures { result ≡ text.holder_part self.now }
    {
        let bytes = self.as_slice();
        let (holder, _) = bytes.split_at(bytes.len() - 5);
        keep_holder(holder)
    }

    /// Its sequence: the last five bytes.
    pub fn sequence(&self) -> Sequence
        ensures { result ≡ text.sequence_part self.now }
    {
        let bytes = self.as_slice();
        let (_, sequence) = bytes.split_at(bytes.len() - 5);
        keep_sequence(sequence)
    }

    /// Whether both are the same reference, byte for byte.
    pub fn is(&self, other: &Reference) -> bool
        ensures same { IsTrue result ↔ (self.now ≡ other.now) }
        ensures tells { result ≡ bytes_eq self.now other.now }
    {
        self.as_slice() == other.as_slice()
    }
}
