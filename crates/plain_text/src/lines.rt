// The lines of a text.
ghost use Rattle.std.specs.Prelude.{◌≡◌, ℕ, ◌+◌, ◌<◌, ◌≤◌, ◌==◌, List, [], ◌∷◌, length, MatchOption, IfSome, ◌^◌};
ghost use Rattle.std.specs.List.{position_or_len};
ghost use Rattle.std.specs.Str.Lines.{lines, strip_carriage_return};
ghost use Rattle.eac_base.specs.Text.{is_passed_over};
ghost use Rattle.plain_text.specs.Lines.{numbered_from};

/// Where the byte stands first, or the length.
pub fn first_at(bytes: &[u8], byte: u8) -> usize
    ensures { result ≡ position_or_len (λ b. b == byte) bytes.now }
{
    for (i, b) in bytes.iter().enumerate() {
        if *b == byte {
            return i;
        }
    }
    bytes.len()
}

/// The line without the carriage return at its end.
fn strip_carriage_return(line: &[u8]) -> &[u8]
    ensures { result.now ≡ strip_carriage_return line.now }
{
    match line {
        [front @ .., b'\r'] => front,
        _ => line,
    }
}

/// The first line, and the bytes behind it.
fn next_line(bytes: &[u8]) -> (&[u8], &[u8])
    requires { 0 < length bytes.now }
    ensures lines { lines bytes.now ≡ result.0.now ∷ lines result.1.now }
    ensures shorter { length result.1.now < length bytes.now }
{
    let at = first_at(bytes, b'\n');
    if at < bytes.len() {
        (strip_carriage_return(&bytes[..at]), &bytes[at + 1..])
    } else {
        (bytes, &bytes[bytes.len()..])
    }
}

/// Whether a line says nothing: it has no bytes, or begins with `#`.
fn is_passed_over(line: &[u8]) -> bool
    ensures { result ≡ is_passed_over line.now }
{
    match line {
        [] => true,
        [first, ..] => *first == b'#',
    }
}

/// The next line that says something, with its number and the bytes behind it. Line `last` is the one before the bytes.
pub fn next_numbered(bytes: &[u8], last: u64) -> Option<(u64, &[u8], &[u8])>
    requires { last + length bytes.now < 2 ^ 64 }
    ensures next { let left = numbered_from (last + 1) bytes.now in MatchOption result (left ≡ [])
        (λ line. left ≡ (line.0, line.1.now) ∷ numbered_from (line.0 + 1) line.2.now) }
    ensures shorter { IfSome result (λ line. (length line.2.now < length bytes.now)
        × (line.0 + length line.2.now ≤ last + length bytes.now)) }
{
    let mut number = last;
    let mut rest = bytes;
    while !rest.is_empty() {
        let (line, after) = next_line(rest);
        number += 1;
        if !is_passed_over(line) {
            return Some((number, line, after));
        }
        rest = after;
    }
    None
}
