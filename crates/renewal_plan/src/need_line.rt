// One line of a need by its words.
ghost use Rattle.std.specs.Prelude.{◌≡◌};
ghost use Rattle.std.specs.Option.{option_copied};
ghost use Rattle.eac_base.specs.Answers.{◌gives◌};
ghost use Rattle.eac_base.specs.Text.{words};
ghost use Rattle.plain_text.specs.Lines.{pieces_left};
ghost use Rattle.policy_limits.specs.SetupLine.{limited_word};
ghost use Rattle.renewal_plan.specs.NeedLine as grammar;

use cv_dates::{Day, day_from_text};
use eac_base::is_same;
use plain_text::decimal::{is_decimal, read_number};
use plain_text::words::{are_words, cut, one_word, two_words};

/// What a line says.
#[derive(Clone, Copy, Debug)]
pub enum NeedLine {
    /// The first and the last day that are to be covered.
    Need { span: (Day, Day) },
    /// How long a new certificate is valid, and the least that has to be left to it.
    Term { days: u32, minimum: u32 },
    /// The most certificates that are valid at one time.
    Live { live: u32 },
    /// The last day of the certificate that the holder has.
    Have { day: Day },
    /// The first and the last day of a certificate of the authority.
    Authority { span: (Day, Day) },
    /// A day on which nobody renews.
    Closed { day: Day },
}

// ---- words

/// Reads DATE.
fn day_of(word: &[u8]) -> Option<Day>
    ensures { result ≡ grammar.day_word word.now }
{
    match day_from_text(word) {
        Ok(day) => Some(day),
        Err(_) => None,
    }
}

/// The two days, where the second one doesn't come before the first.
fn ordered(first: Day, last: Day) -> Option<(Day, Day)>
    ensures { result ≡ grammar.ordered first last }
{
    if last.is_before(&first) {
        None
    } else {
        Some((first, last))
    }
}

/// Reads DATE DATE.
fn span_of(rest: Option<&[u8]>) -> Option<(Day, Day)>
    ensures { result ≡ grammar.span_words (pieces_left (option_copied rest.entry)) }
{
    let (first, last) = two_words(rest)?;
    ordered(day_of(first)?, day_of(last)?)
}

/// Reads DAYS, MINIMUM or N. A number that four bytes can't hold is taken for the greatest that they can: both are
/// beyond each limit.
fn limited_of(word: &[u8]) -> Option<u32>
    ensures { result ≡ limited_word word.now }
{
    if is_decimal(word) {
        Some(read_number(word).unwrap_or(u32::MAX))
    } else {
        None
    }
}

// ---- what stands behind the first word

fn read_need(rest: Option<&[u8]>) -> Option<NeedLine>
    ensures { result ≡ grammar.need_said (pieces_left (option_copied rest.entry)) }
{
    let span = span_of(rest)?;
    Some(NeedLine::Need { span })
}

fn read_term(rest: Option<&[u8]>) -> Option<NeedLine>
    ensures { result ≡ grammar.term_said (pieces_left (option_copied rest.entry)) }
{
    let (days, minimum) = two_words(rest)?;
    Some(NeedLine::Term {
        days: limited_of(days)?,
        minimum: limited_of(minimum)?,
    })
}

fn read_live(rest: Option<&[u8]>) -> Option<NeedLine>
    ensures { result ≡ grammar.live_said (pieces_left (option_copied rest.entry)) }
{
    let live = limited_of(one_word(rest)?)?;
    Some(NeedLine::Live { live })
}

fn read_have(rest: Option<&[u8]>) -> Option<NeedLine>
    ensures { result ≡ grammar.have_said (pieces_left (option_copied rest.entry)) }
{
    let day = day_of(one_word(rest)?)?;
    Some(NeedLine::Have { day })
}

fn read_authority(rest: Option<&[u8]>) -> Option<NeedLine>
    ensures { result ≡ grammar.authority_said (pieces_left (option_copied rest.entry)) }
{
    let span = span_of(rest)?;
    Some(NeedLine::Authority { span })
}

fn read_closed(rest: Option<&[u8]>) -> Option<NeedLine>
    ensures { result ≡ grammar.closed_said (pieces_left (option_copied rest.entry)) }
{
    let day = day_of(one_word(rest)?)?;
    Some(NeedLine::Closed { day })
}

// ---- lines

/// Reads a line, wherever it stands. It is `None` where the line isn't in the grammar.
pub fn read_line(line: &[u8]) -> Option<NeedLine>
    ensures { result ≡ (words line.now gives grammar.line_said) }
{
    if !are_words(line) {
        return None;
    }
    let (kind, rest) = cut(line);
    if is_same(kind, b"need") {
        read_need(rest)
    } else if is_same(kind, b"term") {
        read_term(rest)
    } else if is_same(kind, b"live") {
        read_live(rest)
    } else if is_same(kind, b"have") {
        read_have(rest)
    } else if is_same(kind, b"authority") {
        read_authority(rest)
    } else if is_same(kind, b"closed") {
        read_closed(rest)
    } else {
        None
    }
}
