// Numbers as decimal digits.
ghost use Rattle.std.specs.Prelude.{◌≡◌, ◌+◌, ◌-◌, ◌*◌, ◌++◌, IsTrue, OnOk};
ghost use Rattle.std.specs.Fmt.{decimal};
ghost use Rattle.std.specs.List.{list_all};
ghost use Rattle.std.specs.Str.Parse.{digits_value};
ghost use Rattle.eac_base.specs.Text as text;
ghost use Rattle.plain_text.specs.Digits.{in_four_bytes, number_word};

use eac_base::{NoMemory, Octets};
use std::alloc::Global;

/// Whether the byte is a decimal digit.
pub fn is_digit(byte: u8) -> bool
    ensures { result ≡ text.is_digit byte }
{
    byte.is_ascii_digit()
}

/// Whether each byte is a decimal digit.
pub fn are_digits(bytes: &[u8]) -> bool
    ensures { result ≡ list_all text.is_digit bytes.now }
{
    bytes.iter().all(|byte| is_digit(*byte))
}

/// Whether these are decimal digits without leading zeros.
pub fn is_decimal(word: &[u8]) -> bool
    ensures { result ≡ text.is_decimal word.now }
{
    match word {
        [] => false,
        [digit] => is_digit(*digit),
        [first, rest @ ..] => is_digit(*first) && *first != b'0' && are_digits(rest),
    }
}

/// The number with one digit more, where four bytes can hold it.
fn with_digit(number: u32, digit: u8) -> Option<u32>
    requires { IsTrue (text.is_digit digit) }
    ensures { result ≡ in_four_bytes (10 * number + (digit - 48)) }
{
    number.checked_mul(10)?.checked_add((digit - b'0') as u32)
}

/// The number of the digits, where four bytes can hold it.
fn number_of(digits: &[u8]) -> Option<u32>
    requires { IsTrue (list_all text.is_digit digits.now) }
    ensures { result ≡ in_four_bytes (digits_value 10 digits.now) }
{
    let mut number = 0u32;
    for digit in digits {
        number = with_digit(number, *digit)?;
    }
    Some(number)
}

/// Reads a decimal number without leading zeros. It is `None` exactly where the word is no such number, which
/// [`is_decimal`] tells, or one that four bytes can't hold.
pub fn read_number(word: &[u8]) -> Option<u32>
    ensures { result ≡ number_word word.now }
{
    if is_decimal(word) {
        number_of(word)
    } else {
        None
    }
}

/// Appends the number's digits.
pub fn push_number(alloc: Global, out: &mut Octets, number: u64) -> Result<(), NoMemory>
    ensures { OnOk result (out.new ≡ out.old ++ decimal number) }
{
    let digits = number.to_string(alloc)?;
    out.push_all(digits.as_bytes())
}
