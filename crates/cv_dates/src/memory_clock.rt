// A clock in memory.
ghost use Rattle.std.specs.Prelude.{◌≡◌, ◌-◌, ◌^◌, Some, IfOk, IsErr, ◌⊎◌, ◌↔◌, replicate};
ghost use Rattle.eac_base.specs.Causes.{HasCause};
ghost use Rattle.eac_base.specs.Planned.{IsPlanned};
ghost use Rattle.cv_dates.specs.Clocks.{GivesDay, after_today};

use crate::{Day, DayClock};
use eac_base::{FailPlan, Failed, counted};
use std::marker::Model;

/// One day, whose calls fail by a plan.
#[derive(Debug, Drop)]
pub struct MemoryClock {
    day: Day,
    given: u64,
    plan: FailPlan,
    calls: u64,
    faults: u64,
}

impl Model for MemoryClock {
    ghost use Rattle.cv_dates.specs.Clocks.{ClockValue};

    ghost Value = { ClockValue };

    ghost view = { λ c. record { day = c.day; given = c.given; plan = c.plan; calls = c.calls; faults = c.faults } };
}

impl MemoryClock {
    /// A clock that gave no day yet.
    pub fn new(day: Day, plan: FailPlan) -> MemoryClock
        ensures { result ≡ record { day = day; given = 0; plan = plan; calls = 0; faults = 0 } }
    {
        MemoryClock {
            day,
            given: 0,
            plan,
            calls: 0,
            faults: 0,
        }
    }
}

impl DayClock for MemoryClock {
    ghost days = { λ c. Some (replicate c.given c.day) };

    ghost faults = { λ c. c.faults };

    fn today(&mut self) -> Result<Day, Failed>
        ensures day { GivesDay (Some (replicate self.old.given self.old.day))
            (Some (replicate self.new.given self.new.day)) result }
        ensures cause { HasCause self.old.faults self.new.faults result }
        ensures same { IfOk result (λ day. day ≡ self.old.day) }
        // It fails exactly where its plan says, or where it gave 2^64 - 1 days.
        ensures plan { IsErr result ↔ (IsPlanned self.old.plan self.old.calls ⊎ (self.old.given ≡ 2 ^ 64 - 1)) }
        ensures after { self.new ≡ after_today self.old result }
    {
        let (fails, calls) = counted(&self.plan, self.calls);
        self.calls = calls;
        match self.given.checked_add(1) {
            Some(given) if !fails => {
                self.given = given;
                Ok(self.day)
            }
            _ => {
                self.faults = self.faults.saturating_add(1);
                Err(Failed)
            }
        }
    }
}
