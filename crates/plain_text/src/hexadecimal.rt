// Bytes as hexadecimal digits.
ghost use Rattle.std.specs.Prelude.{◌≡◌, ℕ, ◌<◌, ◌≤◌, List, ◌∷◌, length, Some, None, MatchOption, IfSome, IfOk};
ghost use Rattle.std.specs.declared.option.Option.{Option};
ghost use Rattle.eac_base.specs.Text as text;
ghost use Rattle.plain_text.specs.Digits.{byte_word};

use eac_base::{NoMemory, Octets};
use std::alloc::Global;

/// The value of a hexadecimal digit of either case.
fn hex_value(digit: u8) -> Option<u8>
    ensures small { IfSome result (λ value. value < 16) }
    ensures exact { result ≡ text.hex_value digit }
{
    match digit {
        b'0'..=b'9' => Some(digit - b'0'),
        b'A'..=b'F' => Some(digit - b'A' + 10),
        b'a'..=b'f' => Some(digit - b'a' + 10),
        _ => None,
    }
}

/// The byte of two hexadecimal digits of either case, the high one first.
fn byte_of(high: u8, low: u8) -> Option<u8>
    ensures { let said = text.byte_of (text.hex_value high) (text.hex_value low) in MatchOption result
        ((rest : Option (List ℕ)) → said rest ≡ None)
        (λ byte. (rest : List ℕ) → said (Some rest) ≡ Some (byte ∷ rest)) }
{
    match (hex_value(high), hex_value(low)) {
        (Some(high), Some(low)) => Some(16 * high + low),
        _ => None,
    }
}

/// The first two bytes, and what comes after them.
fn two_digits(hex: &[u8]) -> Option<(u8, u8, &[u8])>
    ensures { MatchOption result (length hex.now ≤ 1) (λ two. hex.now ≡ two.0 ∷ two.1 ∷ two.2.now) }
{
    match hex {
        [high, low, after @ ..] => Some((*high, *low, after)),
        _ => None,
    }
}

/// Reads a byte: just two hexadecimal digits of either case.
pub fn read_byte(word: &[u8]) -> Option<u8>
    ensures { result ≡ byte_word word.now }
{
    let (high, low, more) = two_digits(word)?;
    if !more.is_empty() {
        return None;
    }
    byte_of(high, low)
}

/// Reads bytes: an even number of hexadecimal digits of either case. It is `None` exactly where these are none.
///
/// # Errors
///
/// Want of memory.
pub fn read_bytes(alloc: Global, hex: &[u8]) -> Result<Option<Octets>, NoMemory>
    ensures { IfOk result (λ bytes. bytes ≡ text.hex_bytes hex.now) }
{
    let mut bytes = Octets::new(alloc);
    let mut rest = hex;
    while let Some((high, low, after)) = two_digits(rest) {
        let Some(byte) = byte_of(high, low) else {
            return Ok(None);
        };
        bytes.push_all(&[byte])?;
        rest = after;
    }
    if !rest.is_empty() {
        return Ok(None);
    }
    Ok(Some(bytes))
}
