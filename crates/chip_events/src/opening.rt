// A chip is opened.
ghost use Rattle.std.specs.Prelude.{◌≡◌, ◌≢◌, ◌≤◌, ◌<◌, ◌⊎◌, ℕ, Ok, Err, IfOk, IfErr, OnOk, OnErr, true};
ghost use Rattle.eac_base.specs.Causes.{Rose};
ghost use Rattle.chip_slots.specs.Calls.{DeviceCalls};
ghost use Rattle.chip_slots.specs.Chips.{IsOpened};
ghost use Rattle.chip_slots.specs.Image.{is_memory};
ghost use Rattle.chip_slots.specs.declared.answers.ChipRefusal.TheVariants as refusal;
ghost use Rattle.chip_events.specs.DiskTurns.{OpensTo, IsUntouched};

use chip_slots::{Chip, ChipDisk, ChipRefusal, open_chip};
use eac_base::NoMemory;

// Takes room for the device calls of one call. Nothing that the disk tells is another one.
pub(crate) fn make_room<D: ChipDisk>(disk: &mut D) -> Result<(), NoMemory>
    ensures room { OnOk result (32 ≤ D.spare disk.new) }
    ensures spare { D.spare disk.old ≤ D.spare disk.new }
    ensures same { IsUntouched D.ChipDisk disk.old disk.new }
{
    disk.reserve()
}

// Opens the chip of this disk.
fn open_disk<D: ChipDisk>(disk: &mut D) -> Result<Chip, ChipRefusal>
    requires { 32 ≤ D.spare disk.old }
    ensures opened { (number : ℕ) → OpensTo D.ChipDisk disk.old disk.new number result }
    ensures refusals { IfErr result (λ e. (e ≡ refusal.NoChip) ⊎ (e ≡ refusal.DiskFault)) }
    ensures cause { result ≡ Err refusal.DiskFault → Rose (D.faults disk.old) (D.faults disk.new) }
    ensures quiet { result ≢ Err refusal.DiskFault → D.faults disk.new ≡ D.faults disk.old }
    ensures begun { result ≢ Err refusal.DiskFault → D.moment disk.old < D.moment disk.new }
    ensures calls { DeviceCalls D.ChipDisk 17 disk.old disk.new }
{
    open_chip(disk)
}

// Takes room, and opens the chip. Where memory is wanting nothing was done.
pub(crate) fn open_anew<D: ChipDisk>(disk: &mut D) -> Result<Result<Chip, ChipRefusal>, NoMemory>
    ensures opened { (number : ℕ) → IfOk result (λ o. OpensTo D.ChipDisk disk.old disk.new number o) }
    ensures refusals { IfOk result (λ o. IfErr o (λ e. (e ≡ refusal.NoChip) ⊎ (e ≡ refusal.DiskFault))) }
    ensures cause { result ≡ Ok (Err refusal.DiskFault) → Rose (D.faults disk.old) (D.faults disk.new) }
    ensures quiet { result ≢ Ok (Err refusal.DiskFault) → D.faults disk.new ≡ D.faults disk.old }
    ensures begun { IfOk result (λ o. o ≢ Err refusal.DiskFault → D.moment disk.old < D.moment disk.new) }
    ensures wanting { OnErr result (IsUntouched D.ChipDisk disk.old disk.new) }
    ensures calls { DeviceCalls D.ChipDisk 17 disk.old disk.new }
{
    make_room(disk)?;
    Ok(open_disk(disk))
}
