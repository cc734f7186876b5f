// Dates as a text has them: the same six digits in ASCII.

ghost use Rattle.std.specs.Prelude.{◌≡◌, ℕ, ◌≤◌, Some, IfOk};
ghost use Rattle.std.specs.List.{list_all};
ghost use Rattle.eac_base.specs.Answers.{Answers};
ghost use Rattle.eac_base.specs.Bytes.{is_within};
ghost use Rattle.cv_dates.specs.Calendar as words;
ghost use Rattle.cv_dates.specs.Calendar.{IsTextOf, last_day};

use crate::day::Day;
use crate::digits::{put_date, read_date};
use crate::refusal::DateRefusal;

/// The day that a text of six ASCII digits YYMMDD names.
///
/// # Errors
///
/// The first of these: [`DateRefusal::Length`] where there aren't six bytes, [`DateRefusal::Digit`] where one is no
/// ASCII digit, [`DateRefusal::NoSuchDay`] where the calendar doesn't have the date.
pub fn day_from_text(text: &[u8]) -> Result<Day, DateRefusal>
    ensures exact { Answers (λ d. d) (λ e. Some e) result (words.day_from_text text.now) }
    ensures found { IfOk result (λ day. IsTextOf day text.now) }
    ensures only { (number : ℕ) → IsTextOf number text.now → result ≡ Ok number }
{
    let [
        year_tens,
        year_ones,
        month_tens,
        month_ones,
        day_tens,
        day_ones,
    ] = text
    else {
        return Err(DateRefusal::Length);
    };
    if !all_ascii_digits(text) {
        return Err(DateRefusal::Digit);
    }
    read_date(&[
        *year_tens - b'0',
        *year_ones - b'0',
        *month_tens - b'0',
        *month_ones - b'0',
        *day_tens - b'0',
        *day_ones - b'0',
    ])
}

/// The six ASCII digits YYMMDD of a day.
pub fn day_text(day: Day) -> [u8; 6]
    ensures text { result ≡ words.day_text day }
    ensures named { IsTextOf day result }
    ensures legal { day ≤ last_day }
{
    let [
        year_tens,
        year_ones,
        month_tens,
        month_ones,
        day_tens,
        day_ones,
    ] = put_date(day);
    [
        b'0' + year_tens,
        b'0' + year_ones,
        b'0' + month_tens,
        b'0' + month_ones,
        b'0' + day_tens,
        b'0' + day_ones,
    ]
}

fn all_ascii_digits(text: &[u8]) -> bool
    ensures { result ≡ list_all (is_within 48 57) text.now }
{
    text.iter().all(|b| b'0' <= *b && *b <= b'9')
}
