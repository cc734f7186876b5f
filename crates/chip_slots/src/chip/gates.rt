// The device calls that write a new state into a slot.
ghost use Rattle.std.specs.Prelude.{length, ◌≡◌, ◌≤◌, ◌<◌, ◌+◌, ◌*◌, ℕ, Some, OnOk, IfOk, is_ok, true};
ghost use Rattle.eac_base.specs.Causes.{HasCause};
ghost use Rattle.chip_verify.specs.Trust.{Trust};
ghost use Rattle.chip_slots.specs.Calls.{DeviceCalls};
ghost use Rattle.chip_slots.specs.Crash.{Reads, DeviceCall};
ghost use Rattle.chip_slots.specs.Image.{Reading, gate, is_open, slots_in};
ghost use Rattle.chip_slots.specs.Ready.{EachImage, ReadsAs, ReadsEither, IsSpare, IsFree, IsReady, IsMore, AreRecord};
ghost use Rattle.chip_slots.specs.Ready.{IsStable};
ghost use Rattle.chip_slots.specs.Gates.{seen_gate};

use crate::ChipDisk;
use crate::layout::{CLOSED, OPEN, SLOT};
use eac_base::Failed;

/// Whether a slot is looked at.
#[derive(Clone, Copy, Debug, PartialEq, Eq)]
pub enum Gate {
    Open,
    Closed,
}

/// Reads the gate of a slot.
pub fn read_gate<D: ChipDisk>(disk: &mut D, slot: u64) -> Result<Gate, Failed>
    requires range { 8192 * slot + 8192 ≤ D.size disk.old }
    requires slots { slot < 16 }
    requires spare { 1 ≤ D.spare disk.old }
    ensures gate { IfOk result (λ g. D.tells disk.old → seen_gate g ≡ is_open (gate
        (D.told disk.old (D.moment disk.old)).bytes slot)) }
    ensures call { D.tells disk.old → DeviceCall (is_ok result) Reads (D.moment disk.old) (D.moment disk.new)
        (D.told disk.old) (D.told disk.new) }
    ensures calls { DeviceCalls D.ChipDisk 1 disk.old disk.new }
    ensures cause { HasCause (D.faults disk.old) (D.faults disk.new) result }
{
    let mut gate = [0u8; 1];
    disk.read(SLOT * slot, &mut gate)?;
    if gate[0] == OPEN {
        Ok(Gate::Open)
    } else {
        Ok(Gate::Closed)
    }
}

/// Closes an open gate by a write of its own, and syncs.
fn close_gate<D: ChipDisk>(disk: &mut D, slot: u64) -> Result<(), Failed>
    requires range { 8192 * slot + 8192 ≤ D.size disk.old }
    requires slots { slot < 16 }
    requires spare { 2 ≤ D.spare disk.old }
    ensures images { D.tells disk.old → (old : Reading) → IsSpare slot old (D.told disk.old (D.moment disk.old)) →
        is_open (gate (D.told disk.old (D.moment disk.old)).bytes slot) ≡ true →
        EachImage (ReadsAs old) (D.told disk.old) (D.told disk.new) (D.moment disk.old) (D.moment disk.new) }
    ensures done { OnOk result (D.tells disk.old → (old : Reading) →
        IsSpare slot old (D.told disk.old (D.moment disk.old)) →
        is_open (gate (D.told disk.old (D.moment disk.old)).bytes slot) ≡ true →
        IsFree slot old (D.told disk.new (D.moment disk.new))) }
    ensures zero { OnOk result (D.tells disk.old → gate (D.told disk.new (D.moment disk.new)).bytes slot ≡ 0) }
    ensures calls { DeviceCalls D.ChipDisk 2 disk.old disk.new }
    ensures cause { HasCause (D.faults disk.old) (D.faults disk.new) result }
{
    disk.write_at(SLOT * slot, &[CLOSED])?;
    disk.sync()
}

/// Writes a record behind a closed gate, and syncs.
fn fill_slot<D: ChipDisk>(disk: &mut D, slot: u64, text: &[u8]) -> Result<(), Failed>
    requires range { 8192 * slot + 8192 ≤ D.size disk.old }
    requires slots { slot < 16 }
    requires short { length text.now ≤ 8191 }
    requires spare { 2 ≤ D.spare disk.old }
    ensures images { D.tells disk.old → (old : Reading) → IsFree slot old (D.told disk.old (D.moment disk.old)) →
        EachImage (ReadsAs old) (D.told disk.old) (D.told disk.new) (D.moment disk.old) (D.moment disk.new) }
    ensures done { OnOk result (D.tells disk.old → (old : Reading) (y : Trust × ℕ) →
        IsFree slot old (D.told disk.old (D.moment disk.old)) →
        AreRecord (slots_in (D.told disk.old (D.moment disk.old)).bytes) slot text.now y →
        IsReady slot old y (D.told disk.new (D.moment disk.new))) }
    ensures calls { DeviceCalls D.ChipDisk 2 disk.old disk.new }
    ensures cause { HasCause (D.faults disk.old) (D.faults disk.new) result }
{
    disk.write_at(SLOT * slot + 1, text)?;
    disk.sync()
}

/// Opens the gate before a record by a write of its own, and syncs.
pub fn open_gate<D: ChipDisk>(disk: &mut D, slot: u64) -> Result<(), Failed>
    requires range { 8192 * slot + 8192 ≤ D.size disk.old }
    requires slots { slot < 16 }
    requires spare { 2 ≤ D.spare disk.old }
    ensures images { D.tells disk.old → (old : Reading) (y : Trust × ℕ) →
        IsReady slot old y (D.told disk.old (D.moment disk.old)) → IsMore old y →
        EachImage (ReadsEither old (Some y)) (D.told disk.old) (D.told disk.new) (D.moment disk.old)
        (D.moment disk.new) }
    ensures done { OnOk result (D.tells disk.old → (old : Reading) (y : Trust × ℕ) →
        IsReady slot old y (D.told disk.old (D.moment disk.old)) → IsMore old y →
        IsStable (Some y) (D.told disk.new (D.moment disk.new))) }
    ensures calls { DeviceCalls D.ChipDisk 2 disk.old disk.new }
    ensures cause { HasCause (D.faults disk.old) (D.faults disk.new) result }
{
    disk.write_at(SLOT * slot, &[OPEN])?;
    disk.sync()
}

/// Closes the gate of a slot where it is open, and writes a record behind it.
fn close_and_fill<D: ChipDisk>(
    disk: &mut D,
    slot: u64,
    shown: Gate,
    text: &[u8],
) -> Result<(), Failed>
    requires range { 8192 * slot + 8192 ≤ D.size disk.old }
    requires slots { slot < 16 }
    requires short { length text.now ≤ 8191 }
    requires spare { 4 ≤ D.spare disk.old }
    ensures images { D.tells disk.old → (old : Reading) → IsSpare slot old (D.told disk.old (D.moment disk.old)) →
        is_open (gate (D.told disk.old (D.moment disk.old)).bytes slot) ≡ seen_gate shown →
        EachImage (ReadsAs old) (D.told disk.old) (D.told disk.new) (D.moment disk.old) (D.moment disk.new) }
    ensures done { OnOk result (D.tells disk.old → (old : Reading) (y : Trust × ℕ) →
        IsSpare slot old (D.told disk.old (D.moment disk.old)) →
        is_open (gate (D.told disk.old (D.moment disk.old)).bytes slot) ≡ seen_gate shown →
        AreRecord (slots_in (D.told disk.old (D.moment disk.old)).bytes) slot text.now y →
        IsReady slot old y (D.told disk.new (D.moment disk.new))) }
    ensures calls { DeviceCalls D.ChipDisk 4 disk.old disk.new }
    ensures cause { HasCause (D.faults disk.old) (D.faults disk.new) result }
{
    match shown {
        Gate::Closed => fill_slot(disk, slot, text),
        Gate::Open => {
            close_gate(disk, slot)?;
            fill_slot(disk, slot, text)
        }
    }
}

/// Puts a record into a slot that isn't the newest one's. Each image since the call began reads as the old state or as
/// the record's, and once it answers Ok each one reads as the record's.
pub fn store<D: ChipDisk>(disk: &mut D, slot: u64, text: &[u8]) -> Result<(), Failed>
    requires range { 8192 * slot + 8192 ≤ D.size disk.old }
    requires slots { slot < 16 }
    requires short { length text.now ≤ 8191 }
    requires spare { 7 ≤ D.spare disk.old }
    ensures images { D.tells disk.old → (old : Reading) (y : Trust × ℕ) →
        IsSpare slot old (D.told disk.old (D.moment disk.old)) →
        AreRecord (slots_in (D.told disk.old (D.moment disk.old)).bytes) slot text.now y → IsMore old y →
        EachImage (ReadsEither old (Some y)) (D.told disk.old) (D.told disk.new) (D.moment disk.old)
        (D.moment disk.new) }
    ensures done { OnOk result (D.tells disk.old → (old : Reading) (y : Trust × ℕ) →
        IsSpare slot old (D.told disk.old (D.moment disk.old)) →
        AreRecord (slots_in (D.told disk.old (D.moment disk.old)).bytes) slot text.now y → IsMore old y →
        IsStable (Some y) (D.told disk.new (D.moment disk.new))) }
    ensures calls { DeviceCalls D.ChipDisk 7 disk.old disk.new }
    ensures cause { HasCause (D.faults disk.old) (D.faults disk.new) result }
{
    let shown = read_gate(disk, slot)?;
    close_and_fill(disk, slot, shown, text)?;
    open_gate(disk, slot)
}
