// A chip's disk.
ghost use Rattle.std.specs.Prelude.{◌≡◌, ◌≤◌, ◌<◌, ◌+◌, ◌-◌, ℕ, length, OnOk, is_ok, slice_range};
ghost use Rattle.eac_base.specs.Causes.{HasCause};
ghost use Rattle.chip_slots.specs.Crash.{Standing, Reads, Writes, Syncs, CountsCall, DeviceCall};

pub mod file;
pub mod memory;
mod replay;

use eac_base::{Failed, NoMemory};

/// What a chip keeps its memory on: bytes of a fixed length, of which a crash may tear those that were written since
/// the last sync that succeeded.
///
/// Each `read`, `write_at` and `sync` is a device call, and is counted; once the count stands at its last value each
/// call fails. A moment is the number of device calls so far. A disk in memory tells what stood at each moment; a file
/// doesn't, and then the clauses on bytes say nothing.
///
/// # Errors
///
/// A device call answers [`Failed`] only where the count of faults rose in it or stands at its last value. A call that
/// succeeds leaves that count. A reading or a sync that fails changes no byte; a write that fails leaves any bytes in
/// its range.
pub trait ChipDisk {
    /// Whether the disk tells what stands on it.
    ghost tells: { Self → Type 0 };

    /// What stood at each moment so far.
    ghost told: { Self → ℕ → Standing };

    /// How many bytes it has.
    ghost size: { Self → ℕ };

    /// How many device calls were made.
    ghost moment: { Self → ℕ };

    /// How often a device call has failed. It never falls, and stays at its last value.
    ghost faults: { Self → ℕ };

    /// How many device calls it has room to record.
    ghost spare: { Self → ℕ };

    /// The number of its bytes, which never changes.
    fn len(&self) -> u64
        ensures { result ≡ size self.now };

    /// The number of device calls so far.
    fn calls(&self) -> u64
        ensures { result ≡ moment self.now };

    /// Fills `into` with the bytes from the place on.
    fn read(&mut self, at: u64, into: &mut [u8]) -> Result<(), Failed>
        requires range { at + length into.old ≤ size self.old }
        requires piece { length into.old ≤ 8192 }
        requires spare { 0 < spare self.old }
        ensures bytes { OnOk result (tells self.old →
            into.new ≡ slice_range (told self.old (moment self.old)).bytes at (at + length into.old)) }
        ensures call { tells self.old → DeviceCall (is_ok result) Reads
            (moment self.old) (moment self.new) (told self.old) (told self.new) }
        ensures tells { tells self.old → tells self.new }
        ensures size { size self.new ≡ size self.old }
        ensures moment { CountsCall (is_ok result) (moment self.old) (moment self.new) }
        ensures spare { spare self.old - 1 ≤ spare self.new }
        ensures cause { HasCause (faults self.old) (faults self.new) result };

    /// Puts the bytes at the place.
    fn write_at(&mut self, at: u64, from: &[u8]) -> Result<(), Failed>
        requires range { at + length from.now ≤ size self.old }
        requires piece { length from.now ≤ 8192 }
        requires spare { 0 < spare self.old }
        ensures call { tells self.old → DeviceCall (is_ok result) (Writes at from.now (is_ok result))
            (moment self.old) (moment self.new) (told self.old) (told self.new) }
        ensures tells { tells self.old → tells self.new }
        ensures size { size self.new ≡ size self.old }
        ensures moment { CountsCall (is_ok result) (moment self.old) (moment self.new) }
        ensures spare { spare self.old - 1 ≤ spare self.new }
        ensures cause { HasCause (faults self.old) (faults self.new) result };

    /// Makes all bytes stable, so that a crash leaves what a read gives.
    fn sync(&mut self) -> Result<(), Failed>
        requires spare { 0 < spare self.old }
        ensures call { tells self.old → DeviceCall (is_ok result) (Syncs (is_ok result))
            (moment self.old) (moment self.new) (told self.old) (told self.new) }
        ensures tells { tells self.old → tells self.new }
        ensures size { size self.new ≡ size self.old }
        ensures moment { CountsCall (is_ok result) (moment self.old) (moment self.new) }
        ensures spare { spare self.old - 1 ≤ spare self.new }
        ensures cause { HasCause (faults self.old) (faults self.new) result };

    /// Takes room for 32 device calls. It is no device call, and changes nothing else.
    ///
    /// # Errors
    ///
    /// [`NoMemory`] where memory is wanting.
    fn reserve(&mut self) -> Result<(), NoMemory>
        ensures room { OnOk result (32 ≤ spare self.new) }
        ensures spare { spare self.old ≤ spare self.new }
        ensures tells { (tells self.old → tells self.new) × (tells self.new → tells self.old) }
        ensures told { (m : ℕ) → told self.new m ≡ told self.old m }
        ensures size { size self.new ≡ size self.old }
        ensures moment { moment self.new ≡ moment self.old }
        ensures faults { faults self.new ≡ faults self.old };

    /// What a read gives has the disk's length.
    ghost measured: { (disk : Self) → tells disk → length (told disk (moment disk)).bytes ≡ size disk };
}
