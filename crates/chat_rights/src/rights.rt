// Sets of access rights, and how they are shown.
ghost use Rattle.std.specs.Prelude.{◌≡◌, ◌<◌, ◌↔◌, ◌%◌, ℕ, bit_and, length};
ghost use Rattle.std.specs.Option.{SomeIff};
ghost use Rattle.chat_rights.specs.Kinds.{rights_limit};
ghost use Rattle.chat_rights.specs.Rights as words;
ghost use Rattle.chat_rights.specs.Rights.{Grants};

use crate::Kind;
use std::marker::Model;

/// A set of rights of any type of terminal, seen as the number from 0 to 63 whose bits they are. Which of them a type
/// has, `rights_fit` of `specs/Kinds.antt` says.
#[derive(Clone, Copy, Debug, PartialEq, Eq)]
pub struct Rights {
    bits: u8,
}

impl Model for Rights {
    ghost use Rattle.std.specs.Prelude.{ℕ, ◌<◌};
    ghost use Rattle.chat_rights.specs.Kinds.{rights_limit};

    ghost Value = { ℕ };

    ghost view = { λ r. r.bits };

    ghost invariant = { λ r. r.bits < rights_limit };

    ghost inverse = { λ n. record { bits = n } };
}

impl Rights {
    /// The rights of these bits: none above 63.
    pub fn from_bits(bits: u64) -> Option<Rights>
        ensures { SomeIff result (bits < rights_limit) bits }
    {
        if bits <= 63 {
            Some(Rights { bits: bits as u8 })
        } else {
            None
        }
    }

    /// The number.
    pub fn bits(&self) -> u64
        ensures number { result ≡ self.now }
        ensures within { self.now < rights_limit }
    {
        self.bits as u64
    }

    /// The bits 0 to 5 of a template's byte.
    pub(crate) fn of_byte(byte: u8) -> Rights
        ensures { result ≡ byte % 64 }
    {
        Rights { bits: byte % 64 }
    }
}

/// The rights that stand in both.
pub fn meet(left: Rights, right: Rights) -> Rights
    ensures both { (bit : ℕ) → Grants result bit ↔ (Grants left bit × Grants right bit) }
    ensures bits { result ≡ bit_and left right }
{
    Rights {
        bits: left.bits & right.bits,
    }
}

/// Rights as they are shown: upper-case hexadecimal digits, seen as their list.
#[derive(Clone, Copy, Debug, PartialEq, Eq)]
pub struct RightsText {
    digits: [u8; 2],
}

impl Model for RightsText {
    ghost use Rattle.std.specs.Prelude.{List, ℕ, length, ◌≡◌};

    ghost Value = { List ℕ };

    ghost view = { λ t. t.digits };

    ghost invariant = { λ t. length t.digits ≡ 2 };

    ghost inverse = { λ digits. record { digits = digits } };
}

impl RightsText {
    /// The digits.
    pub fn as_slice(&self) -> &[u8]
        ensures digits { result.now ≡ self.now }
        ensures two { length self.now ≡ 2 }
    {
        &self.digits
    }
}

fn hex_digit(value: u8) -> u8
    requires { value < 16 }
    ensures { result ≡ words.hex_digit value }
{
    if value < 10 {
        b'0' + value
    } else {
        b'A' + (value - 10)
    }
}

/// The rights of a type of terminal in hexadecimal digits: two for an inspection system.
pub fn rights_text(kind: Kind, rights: Rights) -> RightsText
    ensures { result ≡ words.rights_text kind rights }
{
    match kind {
        Kind::Inspection => RightsText {
            digits: [hex_digit(rights.bits / 16), hex_digit(rights.bits % 16)],
        },
    }
}
