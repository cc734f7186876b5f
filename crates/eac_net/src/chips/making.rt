// A chip is made.
ghost use Rattle.std.specs.Prelude.{◌≡◌, ◌<◌, [], ℕ, IsSome, length};
ghost use Rattle.signature_provider.specs.Provider.{Says};
ghost use Rattle.policy_limits.specs.Setup.{SetupValue};
ghost use Rattle.eac_net.specs.Answers.{Tells};
ghost use Rattle.eac_net.specs.ChipCalls.{HandsOver, Happens};
ghost use Rattle.eac_net.specs.ChipSteps.{HasRun};
ghost use Rattle.eac_net.specs.ChipTurn.{told_by};
ghost use Rattle.eac_net.specs.Handed.{Handed};
ghost use Rattle.eac_net.specs.Objects.{Outside, kept_by, over_disks};
ghost use Rattle.eac_net.specs.Packets.{AreBetween};
ghost use Rattle.eac_net.specs.declared.answer.Answer.TheVariants as answers;
ghost use Rattle.eac_net.specs.declared.world.World.{World as WorldValue};

use crate::answer::{Answer, Happened};
use crate::chips::handing::root_due;
use crate::concluding::{conclude, failed, told};
use crate::event::Event;
use crate::world::World;
use chip_events::MakeAnswer;
use chip_slots::ChipDisk;
use cv_dates::Day;
use eac_base::{NoMemory, Octets};
use keeper::Keeper;
use std::alloc::Global;

fn made(made: Result<MakeAnswer, NoMemory>) -> Result<Happened, NoMemory>
    ensures { Tells result (told_by answers.Made made) [] }
{
    match made {
        Ok(answer) => Ok(told(Answer::Made(answer))),
        Err(NoMemory) => Err(NoMemory),
    }
}

// Makes the chip on this disk, where the authority has a certificate.
fn make_at<D: ChipDisk, B: Keeper>(
    alloc: Global,
    disk: &mut D,
    authority: u32,
    day: Day,
    keeper: &mut B,
) -> Result<Happened, NoMemory>
    ensures { (handed : Handed) × HandsOver B.Keeper keeper.old keeper.new handed
        × ((chip provider : ℕ) (says : Says) (w : WorldValue) →
        Happens D.ChipDisk day chip (Event.Make chip authority) disk.old disk.new says (provider, provider) w w handed result) }
{
    match root_due(alloc, authority, keeper) {
        Err(fault) => failed(fault),
        Ok(None) => Ok(told(Answer::Made(MakeAnswer::Unfounded))),
        Ok(Some(root)) => made(chip_events::make(disk, root.as_slice(), day)),
    }
}

/// Makes the chip of this number with the authority's newest certificate, on the day in force.
pub fn make<D: ChipDisk, B: Keeper>(
    alloc: Global,
    world: &mut World,
    chips: &mut [D],
    chip: u32,
    authority: u32,
    keeper: &mut B,
    line: &mut Octets,
) -> Result<(), NoMemory>
    requires day { IsSome world.old.day }
    requires chip { chip < length chips.old }
    ensures steps { (setup : SetupValue) (o : Outside) → AreBetween setup world.old.packets
        → HasRun D.ChipDisk setup (Event.Make chip authority) result (world.old, line.old) (world.new, line.new)
        (over_disks D.ChipDisk chips.old (kept_by B.Keeper keeper.old o))
        (over_disks D.ChipDisk chips.new (kept_by B.Keeper keeper.new o)) chips.old chips.new }
    ensures day { world.new.day ≡ world.old.day }
{
    let day = world.day.unwrap();
    let made = make_at(alloc, &mut chips[chip as usize], authority, day, keeper);
    conclude(alloc, world, made, line)
}
