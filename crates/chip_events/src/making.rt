// A chip is made.
ghost use Rattle.std.specs.Prelude.{◌≡◌, ◌≢◌, ◌≤◌, ℕ, Ok, Err, OnErr, OnOk, IfOk, true, false};
ghost use Rattle.eac_base.specs.Causes.{Rose};
ghost use Rattle.cvc_grammar.specs.Views.{seen_cert};
ghost use Rattle.chip_verify.specs.Views.{IsView};
ghost use Rattle.chip_slots.specs.Calls.{DeviceCalls};
ghost use Rattle.chip_slots.specs.Image as words;
ghost use Rattle.chip_events.specs.declared.answers.MakeAnswer.TheVariants as makes;
ghost use Rattle.chip_events.specs.DiskTurns.{DiskTurn, IsUntouched};
ghost use Rattle.chip_events.specs.Makings.{Makes, MakesRead, DoesNothing, answered_as};

use crate::MakeAnswer;
use crate::opening::make_room;
use chip_slots::{ChipDisk, MakeRefusal, make_chip};
use cv_dates::Day;
use cvc_grammar::{CertView, view_cert};
use eac_base::NoMemory;
use holder_reference::Reference;

// Whether a disk of this length can be a memory.
fn is_memory(size: u64) -> bool
    ensures { result ≡ words.is_memory size }
{
    size % 8192 == 0 && 2 <= size / 8192 && size / 8192 <= 16
}

// The answer, by what the call gave.
fn answer_of(made: Result<(), MakeRefusal>, holder: Reference) -> MakeAnswer
    ensures { result ≡ answered_as made holder }
{
    match made {
        Ok(()) => MakeAnswer::Made { holder },
        Err(MakeRefusal::Size) => MakeAnswer::WrongSize,
        Err(MakeRefusal::NotRoot) => MakeAnswer::Unfounded,
        Err(MakeRefusal::Made) => MakeAnswer::WasMade,
        Err(MakeRefusal::DiskFault) => MakeAnswer::DiskFault,
    }
}

// Makes the chip with a certificate that was read.
fn make_read<D: ChipDisk>(disk: &mut D, root: &CertView, day: Day) -> Result<MakeAnswer, NoMemory>
    requires view { IsView root.now }
    requires memory { words.is_memory (D.size disk.old) ≡ true }
    ensures turn { (number : ℕ) → DiskTurn D.ChipDisk disk.old disk.new (number, number)
        (λ c c'. MakesRead (Ok (seen_cert root.now)) day c result c') }
    ensures untouched { DoesNothing result → IsUntouched D.ChipDisk disk.old disk.new }
    ensures cause { result ≡ Ok makes.DiskFault → Rose (D.faults disk.old) (D.faults disk.new) }
    ensures quiet { result ≢ Ok makes.DiskFault → D.faults disk.new ≡ D.faults disk.old }
    ensures calls { DeviceCalls D.ChipDisk 24 disk.old disk.new }
{
    match make_room(disk) {
        Err(NoMemory) => Err(NoMemory),
        Ok(()) => {
            let made = make_chip(disk, root, day);
            Ok(answer_of(made, root.holder))
        }
    }
}

/// Makes a chip on this disk, which trusts the root certificate from this day on.
///
/// # Errors
///
/// In this order: `WrongSize` exactly where the length is no memory's, and `Unfounded` exactly where the bytes aren't the
/// certificate of an authority, or its elliptic key has no domain: both without a device call. [`NoMemory`] where memory is
/// wanting; then nothing was done. `WasMade` where the memory reads as a state, and `DiskFault` where a device call failed,
/// which the disk has counted.
pub fn make<D: ChipDisk>(disk: &mut D, root: &[u8], day: Day) -> Result<MakeAnswer, NoMemory>
    ensures turn { (number : ℕ) → DiskTurn D.ChipDisk disk.old disk.new (number, number)
        (λ c c'. Makes root.now day c result c') }
    ensures untouched { DoesNothing result → IsUntouched D.ChipDisk disk.old disk.new }
    ensures cause { result ≡ Ok makes.DiskFault → Rose (D.faults disk.old) (D.faults disk.new) }
    ensures quiet { result ≢ Ok makes.DiskFault → D.faults disk.new ≡ D.faults disk.old }
    ensures calls { DeviceCalls D.ChipDisk 24 disk.old disk.new }
{
    if !is_memory(disk.len()) {
        return Ok(MakeAnswer::WrongSize);
    }
    match view_cert(root) {
        Err(_) => Ok(MakeAnswer::Unfounded),
        Ok(root) => make_read(disk, &root, day),
    }
}
