// A sequence as a value of fixed size, and how it counts.
ghost use Rattle.std.specs.Prelude.{◌≡◌, ℕ, ◌+◌, ◌%◌, ◌<◌, ◌⊎◌, None, IfSome, IsTrue, ◌↔◌};
ghost use Rattle.std.specs.List.{list_all};
ghost use Rattle.std.specs.Str.{bytes_eq};
ghost use Rattle.eac_base.specs.Text.{is_digit};
ghost use Rattle.holder_reference.specs.Reference.{is_sequence};
ghost use Rattle.holder_reference.specs.Sequence as count;

use std::marker::Model;

/// The last part of a reference: five digits or capital letters, seen as their list. Each is legal.
#[derive(Clone, Copy, Debug, PartialEq, Eq)]
pub struct Sequence {
    bytes: [u8; 5],
}

impl Model for Sequence {
    ghost use Rattle.std.specs.Prelude.{List, ℕ, length, ◌≡◌, IsTrue};
    ghost use Rattle.holder_reference.specs.Reference.{is_sequence};

    ghost Value = { List ℕ };

    ghost view = { λ s. s.bytes };

    ghost invariant = { λ s. (length s.bytes ≡ 5) × IsTrue (is_sequence s.bytes) };

    ghost inverse = { λ bytes. record { bytes = bytes } };
}

/// 00001, with which a holder begins to count.
pub fn first_sequence() -> Sequence
    ensures { result ≡ count.five_digits 1 }
{
    Sequence::of_number(1)
}

/// The sequence of the next number, for a decimal sequence. It is `None` exactly where the sequence is 99999 or has a
/// letter.
pub fn next_sequence(sequence: &Sequence) -> Option<Sequence>
    ensures exact { result ≡ count.next_sequence sequence.now }
    ensures adds_one { IfSome result (λ next. (n : ℕ) × count.IsNumber sequence.now n × count.IsNumber next (n + 1)) }
    ensures none { (result ≡ None)
        ↔ ((sequence.now ≡ count.five_digits 99999) ⊎ IsTrue (count.has_letter sequence.now)) }
{
    counted_on(sequence)
}

/// `next_sequence` by its definition alone; what follows from it is proved of the one call.
fn counted_on(sequence: &Sequence) -> Option<Sequence>
    ensures exact { result ≡ count.next_sequence sequence.now }
    ensures legal { IsTrue (is_sequence sequence.now) }
{
    let bytes = sequence.as_slice();
    if !are_digits(bytes) {
        return None;
    }
    let number = number_said(bytes);
    if number < 99_999 {
        Some(Sequence::of_number(number + 1))
    } else {
        None
    }
}

fn are_digits(bytes: &[u8]) -> bool
    ensures { result ≡ list_all is_digit bytes.now }
{
    bytes.iter().all(|b| b'0' <= *b && *b <= b'9')
}

/// The number that five digits say.
fn number_said(digits: &[u8]) -> u32
    requires { IsTrue (count.is_decimal_sequence digits.now) }
    ensures said { result ≡ count.number_said digits.now }
    ensures below { result < 100000 }
{
    let mut number = 0u32;
    for digit in digits {
        number = 10 * number + (*digit - b'0') as u32;
    }
    number
}

/// The last decimal digit of the number, as a byte of text.
fn last_digit(number: u32) -> u8
    ensures { result ≡ 48 + number % 10 }
{
    b'0' + (number % 10) as u8
}

/// The tested bytes, kept.
pub(crate) fn keep_sequence(bytes: &[u8]) -> Sequence
    requires { IsTrue (is_sequence bytes.now) }
    ensures { result ≡ bytes.now }
{
    let mut kept = [0u8; 5];
    kept.copy_from_slice(bytes);
    Sequence { bytes: kept }
}

impl Sequence {
    /// The number in five decimal digits.
    pub fn of_number(number: u32) -> Sequence
        requires { number < 100000 }
        ensures { result ≡ count.five_digits number }
    {
        Sequence {
            bytes: [
                last_digit(number / 10_000),
                last_digit(number / 1_000),
                last_digit(number / 100),
                last_digit(number / 10),
                last_digit(number),
            ],
        }
    }

    /// The five bytes of the sequence.
    pub fn as_slice(&self) -> &[u8]
        ensures bytes { result.now ≡ self.now }
        ensures legal { IsTrue (is_sequence self.now) }
    {
        &self.bytes[..]
    }

    /// Whether both are the same sequence, byte for byte.
    pub fn is(&self, other: &Sequence) -> bool
        ensures same { IsTrue result ↔ (self.now ≡ other.now) }
        ensures tells { result ≡ bytes_eq self.now other.now }
    {
        self.as_slice() == other.as_slice()
    }
}
