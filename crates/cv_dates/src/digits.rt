// Dates as a certificate has them: six bytes, one digit 0 to 9 each.

ghost use Rattle.std.specs.Prelude.{◌≡◌, ℕ, ◌≤◌, Some, IfOk, nat_lt};
ghost use Rattle.std.specs.List.{list_all};
ghost use Rattle.eac_base.specs.Answers.{Answers};
ghost use Rattle.cv_dates.specs.Calendar as words;
ghost use Rattle.cv_dates.specs.Calendar.{IsDateOf, last_day};

use crate::calendar::{date_at, named_day, year_in_century};
use crate::day::Day;
use crate::refusal::DateRefusal;

/// The day that six digits YYMMDD name, each of them a byte 0 to 9 (BSI TR-03110-3).
///
/// # Errors
///
/// The first of these: [`DateRefusal::Length`] where there aren't six bytes, [`DateRefusal::Digit`] where one is above
/// 9, [`DateRefusal::NoSuchDay`] where the calendar doesn't have the date.
pub fn read_date(bytes: &[u8]) -> Result<Day, DateRefusal>
    ensures exact { Answers (λ d. d) (λ e. Some e) result (words.read_date bytes.now) }
    ensures found { IfOk result (λ day. IsDateOf day bytes.now) }
    ensures only { (number : ℕ) → IsDateOf number bytes.now → result ≡ Ok number }
{
    let [
        year_tens,
        year_ones,
        month_tens,
        month_ones,
        day_tens,
        day_ones,
    ] = bytes
    else {
        return Err(DateRefusal::Length);
    };
    if !all_digits(bytes) {
        return Err(DateRefusal::Digit);
    }
    let year = 10 * *year_tens + *year_ones;
    let month = 10 * *month_tens + *month_ones;
    let day = 10 * *day_tens + *day_ones;
    named_day(year, month, day)
}

/// The six digits YYMMDD of a day, each of them a byte 0 to 9 (BSI TR-03110-3).
pub fn put_date(day: Day) -> [u8; 6]
    ensures digits { result ≡ words.date_of day }
    ensures named { IsDateOf day result }
    ensures legal { day ≤ last_day }
{
    let date = date_at(day);
    let year = year_in_century(date);
    [
        year / 10,
        year % 10,
        date.month / 10,
        date.month % 10,
        date.day / 10,
        date.day % 10,
    ]
}

fn all_digits(bytes: &[u8]) -> bool
    ensures { result ≡ list_all (λ d. nat_lt d 10) bytes.now }
{
    bytes.iter().all(|d| *d < 10)
}
