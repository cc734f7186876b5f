// A chip is given a certificate.
ghost use Rattle.std.specs.Prelude.{◌≡◌, ◌<◌, [], IsSome, length};
ghost use Rattle.chip_events.specs.Events.{ImportsOne};
ghost use Rattle.chip_slots.specs.Providers.{IsOnlyAsked};
ghost use Rattle.policy_limits.specs.Setup.{SetupValue};
ghost use Rattle.eac_net.specs.Answers.{Tells};
ghost use Rattle.eac_net.specs.ChipCalls.{CallsChip};
ghost use Rattle.eac_net.specs.ChipSteps.{HasRun};
ghost use Rattle.eac_net.specs.ChipTurn.{told_by};
ghost use Rattle.eac_net.specs.Objects.{Outside, over_disks, provided_by};
ghost use Rattle.eac_net.specs.Packets.{AreBetween};
ghost use Rattle.eac_net.specs.declared.answer.Answer.TheVariants as answers;

use crate::answer::{Answer, Happened};
use crate::concluding::{conclude, told};
use crate::event::Event;
use crate::world::World;
use chip_events::ImportAnswer;
use chip_slots::ChipDisk;
use eac_base::{NoMemory, Octets};
use signature_provider::SignatureProvider;
use std::alloc::Global;

// Gives the certificate to the chip on this disk. The room for its count is taken before.
fn import_at<D: ChipDisk, P: SignatureProvider>(
    world: &mut World,
    disk: &mut D,
    chip: u32,
    bytes: &[u8],
    provider: &mut P,
) -> Result<ImportAnswer, NoMemory>
    ensures calls { CallsChip D.ChipDisk chip disk.old disk.new (P.says provider.old)
        (P.faults provider.old, P.faults provider.new) world.old world.new
        (λ s s'. ImportsOne chip bytes.now s result s') }
    ensures provider { IsOnlyAsked P.SignatureProvider provider.old provider.new }
{
    match world.imports.reserve(chip) {
        Err(NoMemory) => Err(NoMemory),
        Ok(()) => {
            let mut imports = world.imports.of(chip);
            let came = chip_events::import(disk, provider, &mut imports, &mut world.acks, bytes);
            world.imports.put(imports);
            came
        }
    }
}

fn imported(came: Result<ImportAnswer, NoMemory>) -> Result<Happened, NoMemory>
    ensures { Tells result (told_by answers.Imported came) [] }
{
    match came {
        Ok(answer) => Ok(told(Answer::Imported(answer))),
        Err(NoMemory) => Err(NoMemory),
    }
}

/// Opens the chip of this number, and gives it these bytes as a certificate.
pub fn import<D: ChipDisk, P: SignatureProvider>(
    alloc: Global,
    world: &mut World,
    chips: &mut [D],
    chip: u32,
    bytes: &[u8],
    provider: &mut P,
    line: &mut Octets,
) -> Result<(), NoMemory>
    requires day { IsSome world.old.day }
    requires chip { chip < length chips.old }
    ensures steps { (setup : SetupValue) (o : Outside) → AreBetween setup world.old.packets
        → HasRun D.ChipDisk setup (Event.Import chip bytes.now) result (world.old, line.old) (world.new, line.new)
        (over_disks D.ChipDisk chips.old (provided_by P.SignatureProvider provider.old o))
        (over_disks D.ChipDisk chips.new (provided_by P.SignatureProvider provider.new o)) chips.old chips.new }
    ensures day { world.new.day ≡ world.old.day }
{
    let came = import_at(world, &mut chips[chip as usize], chip, bytes, provider);
    conclude(alloc, world, imported(came), line)
}
