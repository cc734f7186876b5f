// Events of the calendar.
ghost use Rattle.std.specs.Prelude.{◌≡◌, Some};
ghost use Rattle.policy_limits.specs.Setup.{SetupValue};
ghost use Rattle.eac_net.specs.Objects.{Outside};
ghost use Rattle.eac_net.specs.Packets.{AreBetween};
ghost use Rattle.eac_net.specs.Steps.{HasStepped};

use crate::event::Event;
use crate::world::World;
use cv_dates::Day;
use eac_base::{NoMemory, Octets};

/// It is this day from now on. Nothing is answered, and no memory is taken.
pub fn begin_day(world: &mut World, day: Day, line: &mut Octets) -> Result<(), NoMemory>
    ensures steps { (setup : SetupValue) (o : Outside) → AreBetween setup world.old.packets
        → HasStepped setup (Event.Day day) result (world.old, line.old) (world.new, line.new) o o }
    ensures day { world.new.day ≡ Some day }
{
    world.day = Some(day);
    Ok(())
}
