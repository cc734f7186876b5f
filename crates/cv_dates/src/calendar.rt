// What is asked of jiff: whether a date is in the calendar, which day it is, and the date of a day.

ghost use Rattle.std.specs.Prelude.{◌≡◌, ℕ, ◌<◌, ◌+◌, ◌↔◌, pos, Some, IfSome, IsSome};
ghost use Rattle.eac_base.specs.Answers.{Answers};
ghost use Rattle.cv_dates.specs.Calendar as words;
ghost use Rattle.cv_dates.specs.Calendar.{day_number};
ghost use Rattle.jiff_core.specs.Date.{IsYmd};
ghost use Rattle.jiff_core.specs.Calendar.{IsDate};

use crate::day::Day;
use crate::refusal::DateRefusal;
use jiff_core::civil::Date;

/// The days from the first date that jiff has, -9999-01-01, to 2000-01-01.
const DAYS_BEFORE_2000: u32 = 4_382_544;

/// The day of this date, where the calendar has it.
pub fn named_day(year: u8, month: u8, day: u8) -> Result<Day, DateRefusal>
    requires year { year < 100 }
    requires month { month < 100 }
    requires day { day < 100 }
    ensures { Answers (λ d. d) (λ e. Some e) result (words.named_day year month day) }
{
    match calendar_date(year, month, day) {
        Some(date) => Ok(Day::numbered(number_in(date, year))),
        None => Err(DateRefusal::NoSuchDay),
    }
}

/// The date of a day.
pub fn date_at(day: Day) -> Date
    ensures { IsYmd (pos (2000 + words.year_of day)) (pos (words.month_of day)) (pos (words.day_of day)) result }
{
    Date::from_days_since_min(day.number() + DAYS_BEFORE_2000)
}

/// The last two digits of a year.
pub fn year_in_century(date: Date) -> u8
    ensures { (year : ℕ) → year < 100 → date.year ≡ pos (2000 + year) → result ≡ year }
{
    date.year.rem_euclid(100) as u8
}

/// The date with these parts, if the calendar has it.
fn calendar_date(year: u8, month: u8, day: u8) -> Option<Date>
    requires year { year < 100 }
    requires month { month < 100 }
    requires day { day < 100 }
    ensures found { IsSome result ↔ IsDate (pos (2000 + year)) (pos month) (pos day) }
    ensures value { IfSome result (IsYmd (pos (2000 + year)) (pos month) (pos day)) }
{
    match jiff::civil::Date::new(2000 + year as i16, month as i8, day as i8) {
        Ok(date) => Some(date.to_plain()),
        Err(_) => None,
    }
}

/// The number of a date of those years.
fn number_in(date: Date, year: u8) -> u32
    requires low { year < 100 }
    requires same { date.year ≡ pos (2000 + year) }
    ensures { result ≡ day_number year date.month date.day }
{
    date.days_since_min() - DAYS_BEFORE_2000
}
