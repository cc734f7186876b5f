// A holder as a value of fixed size.
ghost use Rattle.std.specs.Prelude.{◌≡◌, Some, IfOk, IfErr, IsTrue, ◌↔◌, is_ok};
ghost use Rattle.std.specs.Str.{bytes_eq};
ghost use Rattle.eac_base.specs.Answers.{Answers};
ghost use Rattle.holder_reference.specs.Reference as text;
ghost use Rattle.holder_reference.specs.Refused.{IsRefusedHolder};

use crate::parts::{are_printed, has_country};
use crate::refusal::RefRefusal;
use std::marker::Model;

/// Who holds: a reference without its sequence, 3 to 11 bytes, seen as their list. Each is legal.
#[derive(Clone, Copy, Debug, PartialEq, Eq)]
pub struct Holder {
    // zeros from `len` on, so that equal holders are equal arrays
    bytes: [u8; 11],
    len: usize,
}

impl Model for Holder {
    ghost use Rattle.std.specs.Prelude.{List, ℕ, take, length, ◌-◌, ◌++◌, ◌≡◌, ◌≤◌, replicate, IsTrue};
    ghost use Rattle.holder_reference.specs.Reference.{is_holder};

    ghost Value = { List ℕ };

    ghost view = { λ h. take h.len h.bytes };

    ghost invariant = { λ h. (h.len ≤ 11) × (length h.bytes ≡ 11)
        × (h.bytes ≡ take h.len h.bytes ++ replicate (11 - h.len) 0)
        × IsTrue (is_holder (take h.len h.bytes)) };

    ghost inverse = { λ bytes. record { bytes = bytes ++ replicate (11 - length bytes) 0; len = length bytes } };
}

/// Reads a holder. It is refused by the first condition that the bytes break, in the order of `RefRefusal`: the
/// length, the country, the mnemonic.
pub fn read_holder(bytes: &[u8]) -> Result<Holder, RefRefusal>
    ensures exact { Answers (λ h. h) (λ e. Some e) result (text.read_holder bytes.now) }
    ensures found { IfOk result (λ h. (h ≡ bytes.now) × IsTrue (text.is_holder bytes.now)) }
    ensures whole { is_ok result ≡ text.is_holder bytes.now }
    ensures refused { IfErr result (λ e. IsRefusedHolder bytes.now e) }
{
    if bytes.len() < 3 || 11 < bytes.len() {
        return Err(RefRefusal::Length);
    }
    if !has_country(bytes) {
        return Err(RefRefusal::Country);
    }
    let (_, mnemonic) = bytes.split_at(2);
    if !are_printed(mnemonic) {
        return Err(RefRefusal::Mnemonic);
    }
    Ok(keep_holder(bytes))
}

/// The tested bytes, kept.
pub(crate) fn keep_holder(bytes: &[u8]) -> Holder
    requires { IsTrue (text.is_holder bytes.now) }
    ensures { result ≡ bytes.now }
{
    let mut kept = [0u8; 11];
    kept[..bytes.len()].copy_from_slice(bytes);
    Holder {
        bytes: kept,
        len: bytes.len(),
    }
}

impl Holder {
    /// The bytes of the holder.
    pub fn as_slice(&self) -> &[u8]
        ensures bytes { result.now ≡ self.now }
        ensures legal { IsTrue (text.is_holder self.now) }
    {
        &self.bytes[..self.len]
    }

    /// Whether both are the same holder, byte for byte.
    pub fn is(&self, other: &Holder) -> bool
        ensures same { IsTrue result ↔ (self.now ≡ other.now) }
        ensures tells { result ≡ bytes_eq self.now other.now }
    {
        self.as_slice() == other.as_slice()
    }
}
