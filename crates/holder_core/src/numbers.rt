// The numbers of a party's own keys.
ghost use Rattle.std.specs.Prelude.{◌≡◌, ◌<◌};
ghost use Rattle.holder_core.specs.Numbers as words;

use holder_reference::{Holder, Reference, Sequence, join};

/// A party has so many own keys at most, numbered from 1.
pub const MOST_KEYS: usize = 99_999;

/// The reference of a holder's key of this number.
pub fn numbered(holder: &Holder, number: u32) -> Reference
    requires { number < 100000 }
    ensures { result ≡ words.numbered holder.now number }
{
    join(holder, &Sequence::of_number(number))
}
