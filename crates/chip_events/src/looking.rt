// A chip is told.
ghost use Rattle.std.specs.Prelude.{◌≡◌, ◌≢◌, ◌⊎◌, ℕ, Ok, Err, IfOk, OnErr};
ghost use Rattle.eac_base.specs.Causes.{Rose};
ghost use Rattle.chip_slots.specs.Calls.{DeviceCalls};
ghost use Rattle.chip_slots.specs.declared.answers.ChipRefusal.TheVariants as refusal;
ghost use Rattle.chip_events.specs.declared.answers.Looked.TheVariants as looks;
ghost use Rattle.chip_events.specs.DiskTurns.{DiskTurn, IsUntouched};
ghost use Rattle.chip_events.specs.Events.{Looks, looked_as};

use crate::Looked;
use crate::opening::open_anew;
use chip_slots::{Chip, ChipDisk, ChipRefusal};
use eac_base::NoMemory;

// What an opened chip tells, or why it isn't opened.
fn looked_of(opened: Result<Chip, ChipRefusal>) -> Looked
    ensures { result ≡ looked_as opened }
{
    match opened {
        Err(refusal) => Looked::NotOpened(refusal),
        Ok(chip) => Looked::Read {
            state: chip.state().copied(),
            generation: chip.generation(),
        },
    }
}

/// Opens the chip of this disk, and tells what it trusts, with the generation of that state.
///
/// Nothing is written. An act that a device failure left open is settled by it.
///
/// # Errors
///
/// [`NoMemory`] where memory is wanting; then nothing was done. `NotOpened` is `NoChip` where the length is no memory's or
/// the memory reads as no state, and `DiskFault` where a device call failed, which the disk has counted.
pub fn look<D: ChipDisk>(disk: &mut D) -> Result<Looked, NoMemory>
    ensures turn { (number : ℕ) →
        DiskTurn D.ChipDisk disk.old disk.new (number, number) (λ c c'. Looks c result c') }
    ensures cause { result ≡ Ok (looks.NotOpened refusal.DiskFault) → Rose (D.faults disk.old) (D.faults disk.new) }
    ensures quiet { result ≢ Ok (looks.NotOpened refusal.DiskFault) → D.faults disk.new ≡ D.faults disk.old }
    ensures wanting { OnErr result (IsUntouched D.ChipDisk disk.old disk.new) }
    ensures calls { DeviceCalls D.ChipDisk 17 disk.old disk.new }
{
    match open_anew(disk) {
        Err(NoMemory) => Err(NoMemory),
        Ok(opened) => Ok(looked_of(opened)),
    }
}
