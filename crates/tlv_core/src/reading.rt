// One step of reading is one function.
ghost use Rattle.std.specs.Prelude.{◌≡◌, ℕ, List, Some, IfOk, IsOkAnd};
ghost use Rattle.eac_base.specs.Answers.{Answers};
ghost use Rattle.tlv_core.specs.Object as words;
ghost use Rattle.tlv_core.specs.Object.{BeginsWith};

use crate::{Tag, TlvRefusal};

/// The second byte of a tag, behind a first one that asks for it.
fn second_tag_byte(first: u8, bytes: &[u8]) -> Result<(Tag, &[u8]), TlvRefusal>
    ensures { Answers (λ o. (o.0, o.1.now)) (λ e. Some e) result (words.second_tag_byte first bytes.now) }
{
    match bytes {
        [] => Err(TlvRefusal::Truncated),
        [second, rest @ ..] => {
            if 0x1f <= *second && *second <= 0x7f {
                Ok((256 * (first as u16) + *second as u16, rest))
            } else {
                Err(TlvRefusal::BadTag)
            }
        }
    }
}

fn tag_at(bytes: &[u8]) -> Result<(Tag, &[u8]), TlvRefusal>
    ensures { Answers (λ o. (o.0, o.1.now)) (λ e. Some e) result (words.tag_at bytes.now) }
{
    match bytes {
        [] => Err(TlvRefusal::Truncated),
        [first, rest @ ..] => {
            if *first % 32 == 31 {
                second_tag_byte(*first, rest)
            } else {
                Ok((*first as u16, rest))
            }
        }
    }
}

/// The length behind 81: below 80 the form of one byte would do.
fn one_byte_length(bytes: &[u8]) -> Result<(usize, &[u8]), TlvRefusal>
    ensures { Answers (λ o. (o.0, o.1.now)) (λ e. Some e) result (words.one_byte_length bytes.now) }
{
    match bytes {
        [] => Err(TlvRefusal::Truncated),
        [size, rest @ ..] => {
            if *size < 0x80 {
                Err(TlvRefusal::BadLength)
            } else {
                Ok((*size as usize, rest))
            }
        }
    }
}

/// The length behind 82: with a higher byte of 00 the form of 81 would do.
fn two_byte_length(bytes: &[u8]) -> Result<(usize, &[u8]), TlvRefusal>
    ensures { Answers (λ o. (o.0, o.1.now)) (λ e. Some e) result (words.two_byte_length bytes.now) }
{
    match bytes {
        [] | [_] => Err(TlvRefusal::Truncated),
        [high, low, rest @ ..] => {
            if *high == 0 {
                Err(TlvRefusal::BadLength)
            } else {
                Ok((256 * (*high as usize) + *low as usize, rest))
            }
        }
    }
}

fn length_at(bytes: &[u8]) -> Result<(usize, &[u8]), TlvRefusal>
    ensures { Answers (λ o. (o.0, o.1.now)) (λ e. Some e) result (words.length_at bytes.now) }
{
    match bytes {
        [] => Err(TlvRefusal::Truncated),
        [first, rest @ ..] => {
            if *first < 0x80 {
                Ok((*first as usize, rest))
            } else if *first == 0x80 {
                Err(TlvRefusal::BadLength)
            } else if *first == 0x81 {
                one_byte_length(rest)
            } else if *first == 0x82 {
                two_byte_length(rest)
            } else {
                Err(TlvRefusal::LongLength)
            }
        }
    }
}

fn first_object(bytes: &[u8]) -> Result<(Tag, &[u8], &[u8]), TlvRefusal>
    ensures { Answers (λ o. record { tag = o.0; content = o.1.now; rest = o.2.now }) (λ e. Some e) result
        (words.first_object bytes.now) }
{
    let (tag, rest) = tag_at(bytes)?;
    let (size, rest) = length_at(rest)?;
    if rest.len() < size {
        return Err(TlvRefusal::Truncated);
    }
    let (content, rest) = rest.split_at(size);
    Ok((tag, content, rest))
}

/// The tag, the content and the rest behind the object at the front of the bytes.
///
/// The refusal is that of the first step that fails, in this order: the tag (`Truncated`, `BadTag`), the first byte of
/// the length (`Truncated`, `BadLength` for 80, `LongLength` for 83 or more), its further bytes (`Truncated`, and
/// `BadLength` where a shorter form would do), the content (`Truncated`).
pub fn next_object(bytes: &[u8]) -> Result<(Tag, &[u8], &[u8]), TlvRefusal>
    ensures exact { Answers (λ o. record { tag = o.0; content = o.1.now; rest = o.2.now }) (λ e. Some e) result
        (words.first_object bytes.now) }
    ensures found { IfOk result (λ o. BeginsWith o.0 o.1.now o.2.now bytes.now) }
    ensures only { (tag : ℕ) (content rest : List ℕ) → BeginsWith tag content rest bytes.now
        → IsOkAnd result (λ o. (o.0 ≡ tag) × (o.1.now ≡ content) × (o.2.now ≡ rest)) }
{
    first_object(bytes)
}
