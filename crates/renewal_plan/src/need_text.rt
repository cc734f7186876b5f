// Needs as texts.
ghost use Rattle.std.specs.Prelude.{◌≡◌, IfOk};
ghost use Rattle.eac_base.specs.Answers.{Answers};
ghost use Rattle.renewal_plan.specs.NeedLine as grammar;
ghost use Rattle.renewal_plan.specs.NeedLine.{AreWithin};
ghost use Rattle.renewal_plan.specs.NeedText as words;

use crate::lists::{DayList, SpanList};
use crate::need::Need;
use crate::need_line::{NeedLine, read_line};
use crate::need_refusal::{NeedRefusal, form, limit};
use cv_dates::Day;
use plain_text::lines::{first_at, next_numbered};
use std::alloc::Global;

/// The most days from the first one that is to be covered to the last one, both counted.
const MOST_DAYS: u32 = 3_660;
/// The most days that a certificate is valid after the day on which it is made.
const MOST_TERM: u32 = 92;

const MOST_LIVE: u32 = 100;

const MOST_AUTHORITIES: usize = 100;

const MOST_CLOSED: usize = 3_660;

/// What may come next, with what the lines before it say.
#[derive(Debug, Drop)]
pub enum Reading {
    /// The line `need`.
    Need,
    /// The line `term`.
    Term {
        span: (Day, Day),
    },
    /// The line `live`.
    Live {
        span: (Day, Day),
        days: u32,
        minimum: u32,
    },
    /// The line `have`, or one that may come behind it, or the end.
    Have(Need),
    /// A line `authority` or `closed`, or the end.
    Authority(Need),
    /// A line `closed`, or the end.
    Closed(Need),
}

// ---- limits

fn span_fits(span: &(Day, Day)) -> bool
    ensures { result ≡ grammar.span_fits span.now }
{
    span.1.number() < span.0.number() + MOST_DAYS
}

fn term_fits(days: u32, minimum: u32) -> bool
    ensures { result ≡ grammar.term_fits days minimum }
{
    1 <= days && days <= MOST_TERM && 1 <= minimum && minimum <= days
}

fn live_fits(live: u32) -> bool
    ensures { result ≡ grammar.live_fits live }
{
    1 <= live && live <= MOST_LIVE
}

// ---- one line, by what may come next

/// Takes the line `need`.
fn with_need(number: u64, line: NeedLine) -> Result<Reading, NeedRefusal>
    ensures { Answers (λ r. r) words.rule_of result (words.with_need number line) }
{
    match line {
        NeedLine::Need { span } => {
            if !span_fits(&span) {
                return Err(limit(number));
            }
            Ok(Reading::Term { span })
        }
        _ => Err(form(number)),
    }
}

/// Takes the line `term`.
fn with_term(span: (Day, Day), number: u64, line: NeedLine) -> Result<Reading, NeedRefusal>
    ensures { Answers (λ r. r) words.rule_of result (words.with_term span number line) }
{
    match line {
        NeedLine::Term { days, minimum } => {
            if !term_fits(days, minimum) {
                return Err(limit(number));
            }
            Ok(Reading::Live {
                span,
                days,
                minimum,
            })
        }
        _ => Err(form(number)),
    }
}

/// A need with nothing known of certificates to come.
fn new_need(alloc: Global, span: (Day, Day), days: u32, minimum: u32, live: u32) -> Need
    ensures { result ≡ words.new_need span days minimum live }
{
    Need {
        first: span.0,
        last: span.1,
        days,
        minimum,
        live,
        have: None,
        authorities: SpanList::new(alloc),
        closed: DayList::new(alloc),
    }
}

/// Takes the line `live`.
fn with_live(
    alloc: Global,
    span: (Day, Day),
    days: u32,
    minimum: u32,
    number: u64,
    line: NeedLine,
) -> Result<Reading, NeedRefusal>
    ensures { Answers (λ r. r) words.rule_of result (words.with_live span days minimum number line) }
{
    match line {
        NeedLine::Live { live } => {
            if !live_fits(live) {
                return Err(limit(number));
            }
            Ok(Reading::Have(new_need(alloc, span, days, minimum, live)))
        }
        _ => Err(form(number)),
    }
}

/// Takes a line `closed`.
fn with_closed(mut need: Need, number: u64, line: NeedLine) -> Result<Reading, NeedRefusal>
    ensures { Answers (λ r. r) words.rule_of result (words.with_closed need number line) }
{
    match line {
        NeedLine::Closed { day } => {
            if MOST_CLOSED <= need.closed.len() {
                return Err(limit(number));
            }
            need.closed.push(day)?;
            Ok(Reading::Closed(need))
        }
        _ => Err(form(number)),
    }
}

/// Takes a line `authority`, or one that may come behind it.
fn with_authority(mut need: Need, number: u64, line: NeedLine) -> Result<Reading, NeedRefusal>
    ensures { Answers (λ r. r) words.rule_of result (words.with_authority need number line) }
{
    match line {
        NeedLine::Authority { span } => {
            if MOST_AUTHORITIES <= need.authorities.len() {
                return Err(limit(number));
            }
            need.authorities.push(span)?;
            Ok(Reading::Authority(need))
        }
        _ => with_closed(need, number, line),
    }
}

/// Takes the line `have`, or one that may come behind it.
fn with_have(mut need: Need, number: u64, line: NeedLine) -> Result<Reading, NeedRefusal>
    ensures { Answers (λ r. r) words.rule_of result (words.with_have need number line) }
{
    match line {
        NeedLine::Have { day } => {
            need.have = Some(day);
            Ok(Reading::Authority(need))
        }
        _ => with_authority(need, number, line),
    }
}

// ---- texts

/// Takes what a line says.
fn with_said(
    alloc: Global,
    reading: Reading,
    number: u64,
    line: NeedLine,
) -> Result<Reading, NeedRefusal>
    ensures { Answers (λ r. r) words.rule_of result (words.with_said reading number line) }
{
    match reading {
        Reading::Need => with_need(number, line),
        Reading::Term { span } => with_term(span, number, line),
        Reading::Live {
            span,
            days,
            minimum,
        } => with_live(alloc, span, days, minimum, number, line),
        Reading::Have(need) => with_have(need, number, line),
        Reading::Authority(need) => with_authority(need, number, line),
        Reading::Closed(need) => with_closed(need, number, line),
    }
}

/// Takes the line of this number.
fn with_line(
    alloc: Global,
    reading: Reading,
    number: u64,
    line: &[u8],
) -> Result<Reading, NeedRefusal>
    ensures { Answers (λ r. r) words.rule_of result (words.with_line reading (number, line.now)) }
{
    match read_line(line) {
        Some(said) => with_said(alloc, reading, number, said),
        None => Err(form(number)),
    }
}

/// The need that was read, where the text may end.
fn need_of(reading: Reading) -> Option<Need>
    ensures { result ≡ words.need_of reading }
{
    match reading {
        Reading::Need | Reading::Term { .. } | Reading::Live { .. } => None,
        Reading::Have(need) | Reading::Authority(need) | Reading::Closed(need) => Some(need),
    }
}

/// The number of the line behind the last one.
fn end_line(text: &[u8]) -> u64
    ensures { result ≡ words.end_line text.now }
{
    let mut number = 1;
    let mut rest = text;
    while !rest.is_empty() {
        number += 1;
        let at = first_at(rest, b'\n');
        if rest.len() <= at {
            return number;
        }
        rest = &rest[at + 1..];
    }
    number
}

/// Reads a need: the line `need DATE DATE`, the line `term DAYS MINIMUM`, the line `live N`, at most one line
/// `have DATE`, lines `authority DATE DATE`, and lines `closed DATE`, in this order. Empty lines and lines that begin
/// with `#` are passed over.
///
/// # Errors
///
/// [`NeedRefusal::Fault`] for the first line that breaks a rule, with the least rule that it breaks: 1 where it isn't
/// in the grammar of what may stand there, where a date is no day, and where the second day of a line comes before its
/// first one; 2 where it is beyond a limit: 3,660 days from the first to the last, 1 to 92 days of a certificate, 1 to
/// that many as the minimum, 1 to 100 live ones, 100 lines `authority` and 3,660 lines `closed`. A text that ends
/// before its line `live` breaks rule 1 in the line behind its last one. Or [`NeedRefusal::NoMemory`].
pub fn read_need(alloc: Global, text: &[u8]) -> Result<Need, NeedRefusal>
    ensures exact { Answers (λ need. need) words.rule_of result (words.read_need text.now) }
    ensures within { IfOk result AreWithin }
{
    let mut reading = Reading::Need;
    let mut last: u64 = 0;
    let mut rest = text;
    while let Some((number, line, after)) = next_numbered(rest, last) {
        reading = with_line(alloc, reading, number, line)?;
        last = number;
        rest = after;
    }
    match need_of(reading) {
        Some(need) => Ok(need),
        None => Err(form(end_line(text))),
    }
}
