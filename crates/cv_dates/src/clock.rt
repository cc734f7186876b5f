// Which day it is.
ghost use Rattle.std.specs.Prelude.{ℕ, List};
ghost use Rattle.std.specs.declared.option.Option.{Option};
ghost use Rattle.eac_base.specs.Causes.{HasCause};
ghost use Rattle.cv_dates.specs.Clocks.{GivesDay};

use crate::Day;
use eac_base::Failed;

/// Says which day it is.
pub trait DayClock {
    /// The days that it gave, where it tells them.
    ghost days: { Self → Option (List ℕ) };

    /// How often a call has failed. It never falls, and stays at its last value.
    ghost faults: { Self → ℕ };

    /// The day.
    ///
    /// # Errors
    ///
    /// [`Failed`] only where the count of faults rose in this call or stands at its last value; no day was given then.
    /// Without it that count stays.
    fn today(&mut self) -> Result<Day, Failed>
        ensures day { GivesDay (days self.old) (days self.new) result }
        ensures cause { HasCause (faults self.old) (faults self.new) result };
}
