// A new state is written.
ghost use Rattle.std.specs.Prelude.{◌≡◌, ◌≤◌, Some, OnOk, true};
ghost use Rattle.eac_base.specs.Causes.{HasCause};
ghost use Rattle.chip_slots.specs.Calls.{DeviceCalls};
ghost use Rattle.chip_slots.specs.Image.{Reading};
ghost use Rattle.chip_slots.specs.Image as words;
ghost use Rattle.chip_slots.specs.Ready.{EachImage, ReadsEither, IsFollowing, IsStable};

use crate::ChipDisk;
use crate::chip::gates::store;
use crate::layout::{SLOT, is_memory};
use crate::record::writing::write_record;
use chip_verify::ChipState;
use eac_base::Failed;

/// Writes the state with its generation, which follows what the memory reads as. Each image since the call began reads
/// as before or as the new state, and once it answers Ok each one reads as the new state.
///
/// # Errors
///
/// [`Failed`] where a device call failed, and where the disk's length is no memory's.
pub fn store_state<D: ChipDisk>(
    disk: &mut D,
    state: &ChipState,
    generation: u64,
) -> Result<(), Failed>
    requires spare { 7 ≤ D.spare disk.old }
    ensures images { D.tells disk.old → (old : Reading) → IsStable old (D.told disk.old (D.moment disk.old)) →
        IsFollowing old generation →
        EachImage (ReadsEither old (Some (state.now, generation))) (D.told disk.old) (D.told disk.new)
        (D.moment disk.old) (D.moment disk.new) }
    ensures done { OnOk result (D.tells disk.old → (old : Reading) →
        IsStable old (D.told disk.old (D.moment disk.old)) → IsFollowing old generation →
        IsStable (Some (state.now, generation)) (D.told disk.new (D.moment disk.new))) }
    ensures calls { DeviceCalls D.ChipDisk 7 disk.old disk.new }
    ensures cause { words.is_memory (D.size disk.old) ≡ true → HasCause (D.faults disk.old) (D.faults disk.new) result }
    ensures quiet { OnOk result (D.faults disk.new ≡ D.faults disk.old) }
{
    if !is_memory(disk.len()) {
        return Err(Failed);
    }
    let slots = disk.len() / SLOT;
    let text = write_record(state, generation);
    store(disk, generation % slots, text.as_slice())
}
