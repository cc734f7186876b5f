// The system's day, part of the trusted edge.
ghost use Rattle.std.specs.Prelude.{◌≡◌, None};
ghost use Rattle.cv_dates.specs.Clocks as words;

use crate::{Day, DayClock};
use eac_base::Failed;
use std::rt::Clock;
use std::time::SystemTime;

const SECONDS_A_DAY: u64 = 86_400;

/// The days from 1970-01-01 to 2000-01-01.
const DAYS_BEFORE_2000: u64 = 10_957;

/// The UTC day of the system's clock. It counts its faults, a day outside the years 2000 to 2099 among them, and
/// doesn't tell which days it gave.
#[derive(Drop)]
pub struct StdClock<R: Clock + Drop> {
    rt: R,
    faults: u64,
}

impl<R: Clock + Drop> StdClock<R> {
    /// No call of it has failed yet.
    pub fn new(rt: R) -> StdClock<R>
        ensures { result.faults ≡ 0 }
    {
        StdClock { rt, faults: 0 }
    }
}

/// The UTC day of so many seconds after 1970-01-01; `None` exactly outside the years 2000 to 2099.
pub fn utc_day(seconds: u64) -> Option<Day>
    ensures { result ≡ words.utc_day seconds }
{
    let number = (seconds / SECONDS_A_DAY).checked_sub(DAYS_BEFORE_2000)?;
    match u32::try_from(number) {
        Ok(number) => Day::from_number(number),
        Err(_) => None,
    }
}

fn system_day(rt: &impl Clock) -> Option<Day> {
    let now = SystemTime::now(rt).ok()?;
    let since_1970 = now.duration_since(SystemTime::UNIX_EPOCH).ok()?;
    utc_day(since_1970.as_secs())
}

impl<R: Clock + Drop> DayClock for StdClock<R> {
    ghost days = { λ _. None };

    ghost faults = { λ s. s.faults };

    fn today(&mut self) -> Result<Day, Failed> {
        match system_day(&self.rt) {
            Some(day) => Ok(day),
            None => {
                self.faults = self.faults.saturating_add(1);
                Err(Failed)
            }
        }
    }
}
