//! Days of card-verifiable certificates: the effective and the expiration date.
//!
//! A date is six digits YYMMDD of the years 2000 to 2099 (BSI TR-03110-3, certificate effective date and certificate
//! expiration date). In a certificate each digit is a byte 0 to 9, in a text it is an ASCII digit. A [`Day`] is the
//! plain copied value behind both: the number of days since 2000-01-01.
//!
//! Each reader gives the day exactly where the digits name one of the calendar, and else the first test that fails.
//! Each day has one text, so that reading and writing undo each other, and days compare as their texts do.
//!
//! The calendar's arithmetic is `jiff`'s. Which day it is comes from a [`DayClock`] that is handed in: [`MemoryClock`]
//! gives one day and fails by a plan, [`StdClock`] asks the system. Whether a certificate is expired is left to the
//! layers above. No call takes memory.
#![tactic(auto)]

mod calendar;
mod clock;
mod day;
mod digits;
mod laws;
mod memory_clock;
mod refusal;
mod std_clock;
mod text;

pub use clock::DayClock;
pub use day::{Day, plus_days};
pub use digits::{put_date, read_date};
pub use laws::{dates_sort_as_days, one_date_each, one_text_each};
pub use memory_clock::MemoryClock;
pub use refusal::DateRefusal;
pub use std_clock::{StdClock, utc_day};
pub use text::{day_from_text, day_text};

#[cfg(test)]
mod tests;
