use std::error::Error;
use std::fmt;

/// Why bytes are no date: the first test that fails, in this order.
#[derive(Clone, Copy, Debug, PartialEq, Eq)]
pub enum DateRefusal {
    /// They aren't six bytes.
    Length,
    /// One of them is no digit: 0 to 9, or in a text '0' to '9'.
    Digit,
    /// The calendar has no day with this month and this day of the month.
    NoSuchDay,
}

impl DateRefusal {
    ghost use Rattle.std.specs.Prelude.{◌≡◌};
    ghost use Rattle.cv_dates.specs.Calendar.{refusal_number};

    /// The test's place in the order, from 1.
    pub fn number(&self) -> u8
        ensures { result ≡ refusal_number self.now }
    {
        match self {
            DateRefusal::Length => 1,
            DateRefusal::Digit => 2,
            DateRefusal::NoSuchDay => 3,
        }
    }
}

impl fmt::Display for DateRefusal {
    fn fmt<W: fmt::Write>(&self, f: &mut fmt::Formatter<W>) -> fmt::Result {
        f.write_str(match self {
            DateRefusal::Length => "a date has six digits",
            DateRefusal::Digit => "a date has digits alone",
            DateRefusal::NoSuchDay => "the calendar has no such day",
        })
    }
}

impl Error for DateRefusal {}
