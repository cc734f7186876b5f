// Words of a setup line that stand for themselves.
ghost use Rattle.std.specs.Prelude.{◌≡◌};
ghost use Rattle.policy_limits.specs.SetupLine as grammar;

use chat_rights::Rights;
use eac_base::is_same;
use holder_reference::{Holder, read_holder};
use plain_text::decimal::{is_decimal, read_number};
use plain_text::hexadecimal::read_byte;
use signature_provider::FormName;

/// Reads HOLDER.
pub fn holder_of(word: &[u8]) -> Option<Holder>
    ensures { result ≡ grammar.holder_word word.now }
{
    match read_holder(word) {
        Ok(holder) => Some(holder),
        Err(_) => None,
    }
}

/// Reads FORM.
pub fn form_of(word: &[u8]) -> Option<FormName>
    ensures { result ≡ grammar.form_word word.now }
{
    if is_same(word, b"ec") {
        Some(FormName::Ec)
    } else if is_same(word, b"rsa") {
        Some(FormName::Rsa)
    } else {
        None
    }
}

/// Reads RIGHTS: two hexadecimal digits that say 00 to 3F.
pub fn rights_of(word: &[u8]) -> Option<Rights>
    ensures { result ≡ grammar.rights_word word.now }
{
    let bits = read_byte(word)?;
    Rights::from_bits(bits as u64)
}

/// Reads DAYS or LIVE. A number that four bytes can't hold is taken for the greatest that they can: both are beyond
/// each limit.
pub fn limited_of(word: &[u8]) -> Option<u32>
    ensures { result ≡ grammar.limited_word word.now }
{
    if is_decimal(word) {
        Some(read_number(word).unwrap_or(u32::MAX))
    } else {
        None
    }
}
