// A chip is told.
ghost use Rattle.std.specs.Prelude.{◌≡◌, ◌<◌, [], IsSome, length};
ghost use Rattle.policy_limits.specs.Setup.{SetupValue};
ghost use Rattle.eac_net.specs.Answers.{Tells};
ghost use Rattle.eac_net.specs.ChipSteps.{HasRun};
ghost use Rattle.eac_net.specs.ChipTurn.{told_by};
ghost use Rattle.eac_net.specs.Objects.{Outside, over_disks};
ghost use Rattle.eac_net.specs.Packets.{AreBetween};
ghost use Rattle.eac_net.specs.declared.answer.Answer.TheVariants as answers;

use crate::answer::{Answer, Happened};
use crate::concluding::{conclude, told};
use crate::event::Event;
use crate::world::World;
use chip_events::Looked;
use chip_slots::ChipDisk;
use eac_base::{NoMemory, Octets};
use std::alloc::Global;

fn looked(looked: Result<Looked, NoMemory>) -> Result<Happened, NoMemory>
    ensures { Tells result (told_by answers.Looked looked) [] }
{
    match looked {
        Ok(looked) => Ok(told(Answer::Looked(looked))),
        Err(NoMemory) => Err(NoMemory),
    }
}

/// Opens the chip of this number, and tells it.
pub fn look<D: ChipDisk>(
    alloc: Global,
    world: &mut World,
    chips: &mut [D],
    chip: u32,
    line: &mut Octets,
) -> Result<(), NoMemory>
    requires day { IsSome world.old.day }
    requires chip { chip < length chips.old }
    ensures steps { (setup : SetupValue) (o : Outside) → AreBetween setup world.old.packets
        → HasRun D.ChipDisk setup (Event.Look chip) result (world.old, line.old) (world.new, line.new)
        (over_disks D.ChipDisk chips.old o) (over_disks D.ChipDisk chips.new o) chips.old chips.new }
    ensures day { world.new.day ≡ world.old.day }
{
    let came = chip_events::look(&mut chips[chip as usize]);
    conclude(alloc, world, looked(came), line)
}
