// Why bytes are no reference.
ghost use Rattle.std.specs.Prelude.{◌≡◌};

use std::error::Error;
use std::fmt;

/// The condition that bytes break first, in the order in which they are tested.
#[derive(Clone, Copy, Debug, PartialEq, Eq)]
pub enum RefRefusal {
    /// There aren't 8 to 16 bytes; of a holder, 3 to 11.
    Length,
    /// The first two bytes aren't both A to Z.
    Country,
    /// A byte between them and the last five, or of a holder a byte behind them, is neither 21 to 7E nor A1 to FF.
    Mnemonic,
    /// The last five bytes aren't all 0 to 9 or A to Z. It never comes for a holder.
    Sequence,
}

impl RefRefusal {
    ghost use Rattle.holder_reference.specs.Refused.{refusal_number};

    /// The refusal's number, from 1.
    pub fn number(&self) -> u8
        ensures { result ≡ refusal_number self.now }
    {
        match self {
            RefRefusal::Length => 1,
            RefRefusal::Country => 2,
            RefRefusal::Mnemonic => 3,
            RefRefusal::Sequence => 4,
        }
    }
}

impl fmt::Display for RefRefusal {
    fn fmt<W: fmt::Write>(&self, f: &mut fmt::Formatter<W>) -> fmt::Result {
        f.write_str(match self {
            RefRefusal::Length => "the length is out of bounds",
            RefRefusal::Country => "the country isn't two capital letters",
            RefRefusal::Mnemonic => "a byte of the mnemonic isn't printed",
            RefRefusal::Sequence => "the sequence isn't five digits or capital letters",
        })
    }
}

impl Error for RefRefusal {}
