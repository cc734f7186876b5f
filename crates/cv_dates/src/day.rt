// A day, and what is computed with days.

ghost use Rattle.std.specs.Prelude.{◌≡◌, ◌↔◌, ◌<◌, ◌≤◌, IsTrue};
ghost use Rattle.cv_dates.specs.Calendar as words;
ghost use Rattle.cv_dates.specs.Calendar.{last_day};

use std::marker::Model;

/// The number of 2099-12-31.
const LAST_DAY: u32 = 36_524;

/// A day of the years 2000 to 2099, seen as the number of days since 2000-01-01.
#[derive(Clone, Copy, Debug, PartialEq, Eq)]
pub struct Day {
    days: u32,
}

impl Model for Day {
    ghost use Rattle.std.specs.Prelude.{ℕ, ◌≤◌};
    ghost use Rattle.cv_dates.specs.Calendar.{last_day};

    ghost Value = { ℕ };

    ghost view = { λ d. d.days };

    ghost invariant = { λ d. d.days ≤ last_day };

    ghost inverse = { λ n. record { days = n } };
}

impl Day {
    /// The day that is so many days after 2000-01-01.
    pub(crate) fn numbered(days: u32) -> Day
        requires { days ≤ last_day }
        ensures { result ≡ days }
    {
        Day { days }
    }

    /// The day of this number; `None` exactly above 36,524, which is 2099-12-31.
    pub fn from_number(number: u32) -> Option<Day>
        ensures { result ≡ words.day_at number }
    {
        if number <= LAST_DAY {
            Some(Day { days: number })
        } else {
            None
        }
    }

    /// The days since 2000-01-01: 0 to 36,524.
    pub fn number(&self) -> u32
        ensures number { result ≡ self.now }
        ensures legal { result ≤ last_day }
    {
        self.days
    }

    /// Whether this day comes before the other one.
    pub fn is_before(&self, other: &Day) -> bool
        ensures { IsTrue result ↔ (self.now < other.now) }
    {
        self.days < other.days
    }
}

/// The day that comes so many days later; `None` exactly where that is after 2099-12-31.
pub fn plus_days(day: Day, days: u32) -> Option<Day>
    ensures { result ≡ words.plus_days day days }
{
    let sum = day.number().checked_add(days)?;
    Day::from_number(sum)
}
