// A terminal's chain is shown to a chip.
ghost use Rattle.std.specs.Prelude.{◌≡◌, ◌<◌, [], ℕ, Ok, IsSome, length};
ghost use Rattle.chip_events.specs.DiskTurns.{OpensTo, HandTurn};
ghost use Rattle.chip_events.specs.Givings.{ShowsAll, WereTaken};
ghost use Rattle.chip_slots.specs.Providers.{IsOnlyAsked};
ghost use Rattle.policy_limits.specs.Setup.{SetupValue};
ghost use Rattle.eac_net.specs.Answers.{Tells};
ghost use Rattle.eac_net.specs.ChipCalls.{HandsOver, Happens, KeepsWorld};
ghost use Rattle.eac_net.specs.ChipSteps.{HasRun};
ghost use Rattle.eac_net.specs.ChipTurn.{told_by, shown_as};
ghost use Rattle.eac_net.specs.Counts.{count_at};
ghost use Rattle.eac_net.specs.Handed.{Handed};
ghost use Rattle.eac_net.specs.Chips.{known_of};
ghost use Rattle.eac_net.specs.Objects.{outside};
ghost use Rattle.eac_net.specs.Packets.{AreBetween};

use crate::answer::{Answer, Fault, Happened, Presented};
use crate::chips::handing::chain_due;
use crate::concluding::{conclude, told};
use crate::event::Event;
use crate::world::World;
use chip_events::{Shown, open_for, references, show};
use chip_slots::{Chip, ChipDisk};
use eac_base::{ByteLists, NoMemory, Octets};
use keeper::Keeper;
use signature_provider::SignatureProvider;
use std::alloc::Global;
use terminal_desk::SearchRefusal;

fn shown(shown: Result<Shown, NoMemory>) -> Result<Happened, NoMemory>
    ensures { Tells result (told_by shown_as shown) [] }
{
    match shown {
        Ok(shown) => Ok(told(Answer::Presented(Presented::Shown(shown)))),
        Err(NoMemory) => Err(NoMemory),
    }
}

// Shows the chain to the chip in hand. There is room for its count.
fn show_chain<D: ChipDisk, P: SignatureProvider>(
    alloc: Global,
    world: &mut World,
    disk: &mut D,
    number: u32,
    chip: &mut Chip,
    chain: &ByteLists,
    provider: &mut P,
) -> Result<Shown, NoMemory>
    requires room { number < length world.old.imports }
    ensures world { KeepsWorld number world.old world.new }
    ensures turn { HandTurn D.ChipDisk P.SignatureProvider disk.old disk.new provider.old provider.new
        (record { chip = number; count = count_at world.old.imports number })
        (record { chip = number; count = count_at world.new.imports number }) world.old.acks.acks world.new.acks.acks
        chip.old chip.new (WereTaken result) (λ w left. ShowsAll number w chain.now result left) }
    ensures provider { IsOnlyAsked P.SignatureProvider provider.old provider.new }
{
    let mut imports = world.imports.of(number);
    let shown = show(
        alloc,
        disk,
        provider,
        &mut imports,
        &mut world.acks,
        chip,
        chain,
    );
    world.imports.put(imports);
    shown
}

// Asks for the chain that is due to the chip in hand, and shows it.
fn present_opened<D: ChipDisk, B: Keeper, P: SignatureProvider>(
    alloc: Global,
    world: &mut World,
    disk: &mut D,
    number: u32,
    chip: &mut Chip,
    terminal: u32,
    keeper: &mut B,
    provider: &mut P,
) -> Result<Happened, NoMemory>
    requires room { number < length world.old.imports }
    ensures presents { (day : ℕ) (first : D) → OpensTo D.ChipDisk first disk.old (count_at world.old.imports number) (Ok chip.old)
        → (handed : Handed) × HandsOver B.Keeper keeper.old keeper.new handed
        × Happens D.ChipDisk day number (Event.Present number terminal) first disk.new (P.says provider.old)
        (P.faults provider.old, P.faults provider.new) world.old world.new handed result }
    ensures provider { IsOnlyAsked P.SignatureProvider provider.old provider.new }
{
    let points = references(alloc, chip)?;
    match chain_due(alloc, terminal, points.as_slice(), keeper) {
        Ok(chain) => shown(show_chain(alloc, world, disk, number, chip, &chain, provider)),
        Err(SearchRefusal::NoChain) => Ok(told(Answer::Presented(Presented::NoChain))),
        Err(SearchRefusal::KeeperFault) => Ok(told(Answer::Failed(Fault::Keeper))),
        Err(SearchRefusal::NoMemory) => Err(NoMemory),
    }
}

// Opens the chip on this disk and presents the terminal's chain to it. There is room for its count.
fn present_in_room<D: ChipDisk, B: Keeper, P: SignatureProvider>(
    alloc: Global,
    world: &mut World,
    disk: &mut D,
    number: u32,
    terminal: u32,
    keeper: &mut B,
    provider: &mut P,
) -> Result<Happened, NoMemory>
    requires room { number < length world.old.imports }
    ensures presents { (day : ℕ) → (handed : Handed) × HandsOver B.Keeper keeper.old keeper.new handed
        × Happens D.ChipDisk day number (Event.Present number terminal) disk.old disk.new (P.says provider.old)
        (P.faults provider.old, P.faults provider.new) world.old world.new handed result }
    ensures provider { IsOnlyAsked P.SignatureProvider provider.old provider.new }
{
    match open_for(disk) {
        Err(NoMemory) => Err(NoMemory),
        Ok(Err(refusal)) => Ok(told(Answer::Presented(Presented::NotOpened(refusal)))),
        Ok(Ok(mut chip)) => present_opened(
            alloc, world, disk, number, &mut chip, terminal, keeper, provider,
        ),
    }
}

// The same, where the room for the chip's count is taken before.
fn present_at<D: ChipDisk, B: Keeper, P: SignatureProvider>(
    alloc: Global,
    world: &mut World,
    disk: &mut D,
    number: u32,
    terminal: u32,
    keeper: &mut B,
    provider: &mut P,
) -> Result<Happened, NoMemory>
    ensures presents { (day : ℕ) → (handed : Handed) × HandsOver B.Keeper keeper.old keeper.new handed
        × Happens D.ChipDisk day number (Event.Present number terminal) disk.old disk.new (P.says provider.old)
        (P.faults provider.old, P.faults provider.new) world.old world.new handed result }
    ensures provider { IsOnlyAsked P.SignatureProvider provider.old provider.new }
{
    match world.imports.reserve(number) {
        Err(NoMemory) => Err(NoMemory),
        Ok(()) => present_in_room(alloc, world, disk, number, terminal, keeper, provider),
    }
}

/// Opens the chip of this number, and presents the terminal's chain for its points to it.
pub fn present<D: ChipDisk, B: Keeper, P: SignatureProvider>(
    alloc: Global,
    world: &mut World,
    chips: &mut [D],
    chip: u32,
    terminal: u32,
    keeper: &mut B,
    provider: &mut P,
    line: &mut Octets,
) -> Result<(), NoMemory>
    requires day { IsSome world.old.day }
    requires chip { chip < length chips.old }
    ensures steps { (setup : SetupValue) → AreBetween setup world.old.packets
        → HasRun D.ChipDisk setup (Event.Present chip terminal) result (world.old, line.old) (world.new, line.new)
        (outside B.Keeper P.SignatureProvider (known_of D.ChipDisk chips.old) keeper.old provider.old)
        (outside B.Keeper P.SignatureProvider (known_of D.ChipDisk chips.new) keeper.new provider.new)
        chips.old chips.new }
    ensures day { world.new.day ≡ world.old.day }
{
    let came = present_at(
        alloc,
        world,
        &mut chips[chip as usize],
        chip,
        terminal,
        keeper,
        provider,
    );
    conclude(alloc, world, came, line)
}
