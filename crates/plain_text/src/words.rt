// The words of a line.
ghost use Rattle.std.specs.Prelude.{◌≡◌, ℕ, ◌<◌, List, [], ◌∷◌, length, None, Some, MatchOption, IfSome};
ghost use Rattle.std.specs.List.{list_all};
ghost use Rattle.std.specs.Option.{option_copied};
ghost use Rattle.eac_base.specs.Text as text;
ghost use Rattle.plain_text.specs.Lines as lines;
ghost use Rattle.plain_text.specs.Lines.{pieces, pieces_left};

use crate::lines::first_at;

/// What stands before the first space, and what comes behind it, where there is a space.
pub fn cut(line: &[u8]) -> (&[u8], Option<&[u8]>)
    ensures pieces { pieces line.now ≡ result.0.now ∷ pieces_left (option_copied result.1) }
    ensures shorter { IfSome result.1 (λ rest. length rest.now < length line.now) }
{
    let at = first_at(line, b' ');
    if at < line.len() {
        (&line[..at], Some(&line[at + 1..]))
    } else {
        (line, None)
    }
}

/// Whether each byte may stand in a word.
fn are_word_bytes(bytes: &[u8]) -> bool
    ensures { result ≡ list_all text.is_word_byte bytes.now }
{
    bytes
        .iter()
        .all(|b| (0x21 <= *b && *b <= 0x7e) || 0xa1 <= *b)
}

fn is_word(bytes: &[u8]) -> bool
    ensures { result ≡ text.is_word bytes.now }
{
    match bytes {
        [] => false,
        [_, ..] => are_word_bytes(bytes),
    }
}

/// Whether words stand between single spaces, and nothing else in the line.
pub fn are_words(line: &[u8]) -> bool
    ensures { result ≡ list_all text.is_word (pieces line.now) }
{
    let mut rest = line;
    'words: loop {
        let (word, after) = cut(rest);
        if !is_word(word) {
            return false;
        }
        let Some(after) = after else {
            return true;
        };
        rest = after;
    }
}

/// The next word, and what is left behind it.
pub fn next_word(rest: Option<&[u8]>) -> Option<(&[u8], Option<&[u8]>)>
    ensures { let left = pieces_left (option_copied rest.entry) in MatchOption result (left ≡ [])
        (λ next. left ≡ next.0.now ∷ pieces_left (option_copied next.1)) }
{
    match rest {
        Some(line) => Some(cut(line)),
        None => None,
    }
}

/// The word, where there is just one.
pub fn one_word(rest: Option<&[u8]>) -> Option<&[u8]>
    ensures { option_copied result ≡ lines.one_word (pieces_left (option_copied rest.entry)) }
{
    let Some(line) = rest else {
        return None;
    };
    let (word, after) = cut(line);
    match after {
        None => Some(word),
        Some(_) => None,
    }
}

/// The words, where there are just two.
pub fn two_words(rest: Option<&[u8]>) -> Option<(&[u8], &[u8])>
    ensures { let both = lines.two_words (pieces_left (option_copied rest.entry)) in MatchOption result (both ≡ None)
        (λ two. both ≡ Some (two.0.now, two.1.now)) }
{
    let Some(line) = rest else {
        return None;
    };
    let (first, after) = cut(line);
    match one_word(after) {
        Some(second) => Some((first, second)),
        None => None,
    }
}
