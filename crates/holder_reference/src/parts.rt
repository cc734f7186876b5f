// The tests on the parts of a reference, byte by byte.
ghost use Rattle.std.specs.Prelude.{◌≡◌, ◌||◌};
ghost use Rattle.std.specs.List.{list_all};
ghost use Rattle.eac_base.specs.Text.{is_digit};
ghost use Rattle.holder_reference.specs.Reference as text;

/// Whether the first two bytes, of a holder, are capital letters.
pub fn has_country(holder: &[u8]) -> bool
    ensures { result ≡ text.has_country holder.now }
{
    let end = if holder.len() < 2 { holder.len() } else { 2 };
    holder[..end].iter().all(|b| b'A' <= *b && *b <= b'Z')
}

/// Whether each byte is one of a mnemonic: printed, and no space of either kind.
pub fn are_printed(bytes: &[u8]) -> bool
    ensures { result ≡ list_all text.is_printed bytes.now }
{
    bytes
        .iter()
        .all(|b| (0x21 <= *b && *b <= 0x7e) || 0xa1 <= *b)
}

/// Whether each byte is a digit or a capital letter.
pub fn are_digits_or_capitals(bytes: &[u8]) -> bool
    ensures { result ≡ list_all (λ b. is_digit b || text.is_capital b) bytes.now }
{
    bytes.iter().all(|b| (b'0' <= *b && *b <= b'9') || (b'A' <= *b && *b <= b'Z'))
}
