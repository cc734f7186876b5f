// The first words of event lines.
ghost use Rattle.std.specs.Prelude.{◌≡◌};
ghost use Rattle.eac_cli.specs.LineGrammar.{kind_word};

use eac_base::is_same;

/// What the first word of an event line says.
#[derive(Clone, Copy, Debug, PartialEq, Eq)]
pub enum EventKind {
    Day,
    Ask,
    Found,
    Link,
    Trust,
    Apply,
    Fetch,
    Push,
    Send,
    Deliver,
    Make,
    Present,
    Import,
    Look,
}

/// Reads the first word.
pub fn kind_of(word: &[u8]) -> Option<EventKind>
    ensures { result ≡ kind_word word.now }
{
    if is_same(word, b"day") {
        Some(EventKind::Day)
    } else if is_same(word, b"ask") {
        Some(EventKind::Ask)
    } else if is_same(word, b"found") {
        Some(EventKind::Found)
    } else if is_same(word, b"link") {
        Some(EventKind::Link)
    } else if is_same(word, b"trust") {
        Some(EventKind::Trust)
    } else if is_same(word, b"apply") {
        Some(EventKind::Apply)
    } else if is_same(word, b"fetch") {
        Some(EventKind::Fetch)
    } else if is_same(word, b"push") {
        Some(EventKind::Push)
    } else if is_same(word, b"send") {
        Some(EventKind::Send)
    } else if is_same(word, b"deliver") {
        Some(EventKind::Deliver)
    } else if is_same(word, b"make") {
        Some(EventKind::Make)
    } else if is_same(word, b"present") {
        Some(EventKind::Present)
    } else if is_same(word, b"import") {
        Some(EventKind::Import)
    } else if is_same(word, b"look") {
        Some(EventKind::Look)
    } else {
        None
    }
}
