// A whole memory, read.
ghost use Rattle.std.specs.Prelude.{◌≡◌, ◌≤◌, ◌<◌, ◌*◌, length, None, OnOk, IfOk, IfSome, is_ok, drop};
ghost use Rattle.std.specs.Prelude.{slice_index, if◌then◌else◌, true};
ghost use Rattle.eac_base.specs.Causes.{HasCause};
ghost use Rattle.chip_slots.specs.Calls.{DeviceCalls};
ghost use Rattle.chip_slots.specs.Crash.{Reads, DeviceCall};
ghost use Rattle.chip_slots.specs.Slot.{record_of};
ghost use Rattle.chip_slots.specs.Image.{is_open, slot_says, greatest, newer, reads};
ghost use Rattle.chip_slots.specs.Image as words;
ghost use Rattle.chip_slots.specs.Found.{seen, Stays, IsLookedAt, IsFoundIn};

use crate::ChipDisk;
use crate::layout::{OPEN, SLOT, is_memory};
use crate::record::reading::read_record;
use chip_verify::ChipState;
use eac_base::Failed;

/// A state with the number of its generation.
#[derive(Debug, Drop)]
pub struct Stored {
    pub state: ChipState,
    pub generation: u64,
}

// What the bytes of a slot say.
fn said_by(slots: u64, slot: u64, bytes: &[u8]) -> Option<Stored>
    requires slots { 0 < slots }
    requires size { length bytes.now ≡ 8192 }
    ensures { seen result ≡
        (if is_open (slice_index bytes.now 0) then record_of slots slot (drop 1 bytes.now) else None) }
{
    if bytes[0] != OPEN {
        return None;
    }
    match read_record(slots, slot, &bytes[1..]) {
        None => None,
        Some((state, generation)) => Some(Stored { state, generation }),
    }
}

fn read_slot<D: ChipDisk>(disk: &mut D, slots: u64, slot: u64) -> Result<Option<Stored>, Failed>
    requires slots { slots ≤ 16 }
    requires slot { slot < slots }
    requires range { 8192 * slots ≤ D.size disk.old }
    requires spare { 1 ≤ D.spare disk.old }
    ensures says { IfOk result (λ r. D.tells disk.old → seen r ≡ slot_says slots
        (D.told disk.old (D.moment disk.old)).bytes slot) }
    ensures call { D.tells disk.old → DeviceCall (is_ok result) Reads (D.moment disk.old) (D.moment disk.new)
        (D.told disk.old) (D.told disk.new) }
    ensures calls { DeviceCalls D.ChipDisk 1 disk.old disk.new }
    ensures cause { HasCause (D.faults disk.old) (D.faults disk.new) result }
{
    let mut bytes = [0u8; 8192];
    match disk.read(SLOT * slot, &mut bytes) {
        Err(failed) => Err(failed),
        Ok(()) => Ok(said_by(slots, slot, &bytes)),
    }
}

// The one of greater generation.
fn greater(found: Option<Stored>, best: Option<Stored>) -> Option<Stored>
    ensures { seen result ≡ newer (seen found) (seen best) }
{
    match (found, best) {
        (Some(a), Some(b)) => {
            if a.generation < b.generation {
                Some(b)
            } else {
                Some(a)
            }
        }
        (Some(a), None) => Some(a),
        (None, b) => b,
    }
}

// All slots, one after another.
fn read_slots<D: ChipDisk>(disk: &mut D, slots: u64) -> Result<Option<Stored>, Failed>
    requires slots { (0 < slots) × (slots ≤ 16) }
    requires range { 8192 * slots ≤ D.size disk.old }
    requires spare { 16 ≤ D.spare disk.old }
    ensures found { IfOk result (λ r. D.tells disk.old →
        seen r ≡ greatest (slot_says slots (D.told disk.old (D.moment disk.old)).bytes) slots) }
    ensures stays { D.tells disk.old → Stays (D.told disk.old) (D.told disk.new) (D.moment disk.old)
        (D.moment disk.new) }
    ensures calls { DeviceCalls D.ChipDisk 16 disk.old disk.new }
    ensures cause { HasCause (D.faults disk.old) (D.faults disk.new) result }
{
    let mut best: Option<Stored> = None;
    for slot in 0..slots {
        match read_slot(disk, slots, slot) {
            Err(failed) => return Err(failed),
            Ok(found) => best = greater(found, best),
        }
    }
    Ok(best)
}

/// What a memory reads as. Nothing is made stable.
pub fn read_unsynced<D: ChipDisk>(disk: &mut D) -> Result<Option<Stored>, Failed>
    requires { 16 ≤ D.spare disk.old }
    ensures found { IfOk result (λ r. D.tells disk.old → seen r ≡ reads (D.told disk.old (D.moment disk.old)).bytes) }
    ensures memory { IfOk result (λ r. IfSome r (λ s. words.is_memory (D.size disk.old) ≡ true)) }
    ensures stays { D.tells disk.old → Stays (D.told disk.old) (D.told disk.new) (D.moment disk.old)
        (D.moment disk.new) }
    ensures calls { DeviceCalls D.ChipDisk 16 disk.old disk.new }
    ensures cause { HasCause (D.faults disk.old) (D.faults disk.new) result }
{
    let size = disk.len();
    if !is_memory(size) {
        return Ok(None);
    }
    read_slots(disk, size / SLOT)
}

/// What a memory reads as, once all of it is stable. `None` where its length is no memory's, or no slot says anything.
pub fn read_memory<D: ChipDisk>(disk: &mut D) -> Result<Option<Stored>, Failed>
    requires { 17 ≤ D.spare disk.old }
    ensures found { IfOk result (λ r. D.tells disk.old → seen r ≡ reads (D.told disk.old (D.moment disk.old)).bytes) }
    ensures memory { IfOk result (λ r. IfSome r (λ s. words.is_memory (D.size disk.old) ≡ true)) }
    ensures looked { D.tells disk.old → IsLookedAt (D.told disk.old) (D.told disk.new) (D.moment disk.old)
        (D.moment disk.new) }
    ensures begun { OnOk result (D.moment disk.old < D.moment disk.new) }
    ensures since { OnOk result (D.tells disk.old → IsFoundIn (D.told disk.old) (D.told disk.new) (D.moment disk.old)
        (D.moment disk.new)) }
    ensures calls { DeviceCalls D.ChipDisk 17 disk.old disk.new }
    ensures cause { HasCause (D.faults disk.old) (D.faults disk.new) result }
{
    match disk.sync() {
        Err(failed) => Err(failed),
        Ok(()) => read_unsynced(disk),
    }
}
