// A chip is made.
ghost use Rattle.std.specs.Prelude.{◌≡◌, ◌≢◌, ◌≤◌, ◌↔◌, ◌⊎◌, None, Err, IfSome, true, false};
ghost use Rattle.eac_base.specs.Causes.{Rose};
ghost use Rattle.chip_verify.specs.Views.{IsView, seen_body};
ghost use Rattle.chip_verify.specs.Root.{first_trust};
ghost use Rattle.chip_slots.specs.Calls.{DeviceCalls};
ghost use Rattle.chip_slots.specs.Image as words;
ghost use Rattle.chip_slots.specs.Image.{reads};
ghost use Rattle.chip_slots.specs.Chips.{Makes};
ghost use Rattle.chip_slots.specs.declared.answers.MakeRefusal.TheVariants as refuses;

use crate::chip::reading::read_memory;
use crate::chip::storing::store_state;
use crate::layout::is_memory;
use crate::{ChipDisk, MakeRefusal};
use chip_verify::ChipState;
use cv_dates::Day;
use cvc_grammar::CertView;

// Writes the first state where the memory has none.
fn make_with<D: ChipDisk>(disk: &mut D, state: &ChipState) -> Result<(), MakeRefusal>
    requires memory { words.is_memory (D.size disk.old) ≡ true }
    requires spare { 32 ≤ D.spare disk.old }
    ensures makes { D.tells disk.old → Makes state.now (reads (D.told disk.old (D.moment disk.old)).bytes) result
        (D.told disk.old) (D.told disk.new) (D.moment disk.old) (D.moment disk.new) }
    ensures cause { result ≡ Err refuses.DiskFault → Rose (D.faults disk.old) (D.faults disk.new) }
    ensures quiet { result ≢ Err refuses.DiskFault → D.faults disk.new ≡ D.faults disk.old }
    ensures other { (result ≢ Err refuses.Size) × (result ≢ Err refuses.NotRoot) }
    ensures calls { DeviceCalls D.ChipDisk 24 disk.old disk.new }
{
    match read_memory(disk) {
        Err(_) => Err(MakeRefusal::DiskFault),
        Ok(Some(_)) => Err(MakeRefusal::Made),
        Ok(None) => match store_state(disk, state, 0) {
            Err(_) => Err(MakeRefusal::DiskFault),
            Ok(()) => Ok(()),
        },
    }
}

/// Makes a chip: writes generation 0 with this certificate as its only trust point, on this day.
///
/// The certificate's signature isn't looked at: whoever makes a chip vouches for it. The memory is made stable and read
/// first, and is written only where it reads as no state. From then on each image reads as no state or as the new one,
/// and once it answers Ok each one reads as the new one.
///
/// # Errors
///
/// In this order: `Size` exactly where the length is no memory's; `NotRoot` exactly where the certificate isn't an
/// authority's or its key is elliptic without a domain; `DiskFault` where a device call failed, which the disk has
/// counted; `Made` where none failed and the memory reads as a state. A later device failure is `DiskFault` too. With
/// each other answer the count of faults is as it was. Before the first device call nothing has changed; where nothing
/// was written, no image is another one than a crash could leave before.
pub fn make_chip<D: ChipDisk>(disk: &mut D, first: &CertView, day: Day) -> Result<(), MakeRefusal>
    requires view { IsView first.now }
    requires spare { 32 ≤ D.spare disk.old }
    ensures size { (result ≡ Err refuses.Size) ↔ (words.is_memory (D.size disk.old) ≡ false) }
    ensures root { (result ≡ Err refuses.NotRoot) ↔ ((words.is_memory (D.size disk.old) ≡ true)
        × (first_trust (seen_body first.now) day ≡ None)) }
    ensures makes { D.tells disk.old → words.is_memory (D.size disk.old) ≡ true →
        IfSome (first_trust (seen_body first.now) day) (λ t.
        Makes t (reads (D.told disk.old (D.moment disk.old)).bytes) result (D.told disk.old) (D.told disk.new)
        (D.moment disk.old) (D.moment disk.new)) }
    ensures untouched { (result ≡ Err refuses.Size) ⊎ (result ≡ Err refuses.NotRoot) → disk.new ≡ disk.old }
    ensures cause { result ≡ Err refuses.DiskFault → Rose (D.faults disk.old) (D.faults disk.new) }
    ensures quiet { result ≢ Err refuses.DiskFault → D.faults disk.new ≡ D.faults disk.old }
    ensures calls { DeviceCalls D.ChipDisk 24 disk.old disk.new }
{
    if !is_memory(disk.len()) {
        return Err(MakeRefusal::Size);
    }
    match ChipState::of_root(first, day) {
        None => Err(MakeRefusal::NotRoot),
        Some(state) => make_with(disk, &state),
    }
}
