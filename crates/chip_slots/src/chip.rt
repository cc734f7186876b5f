// A chip between its calls.
ghost use Rattle.std.specs.Prelude.{◌≡◌, ◌≢◌, ◌≤◌, ◌<◌, ◌⊎◌, Err, IfOk, IfErr, true};
ghost use Rattle.eac_base.specs.Causes.{Rose};
ghost use Rattle.chip_slots.specs.Calls.{DeviceCalls};
ghost use Rattle.chip_slots.specs.Image.{is_memory, reads};
ghost use Rattle.chip_slots.specs.Found.{IsLookedAt, IsFoundIn};
ghost use Rattle.chip_slots.specs.Chips.{Opens, IsOpened};
ghost use Rattle.chip_slots.specs.declared.answers.ChipRefusal.TheVariants as refusal;

mod gates;
mod importing;
pub mod making;
mod reading;
mod storing;

use self::reading::{Stored, read_memory};
use crate::{ChipDisk, ChipRefusal};
use chip_verify::{ChipState, Session};
use std::marker::Model;

/// A chip whose memory was read, seen as a `ChipValue`: what it trusts with its generation, and its session.
#[derive(Debug, Drop)]
pub struct Chip {
    pub(crate) state: ChipState,
    pub(crate) session: Session,
    pub(crate) generation: u64,
    // a device failure has left open which state stands in the memory
    pub(crate) needs_opening: bool,
}

impl Model for Chip {
    ghost use Rattle.std.specs.Prelude.{◌<◌, ◌^◌};
    ghost use Rattle.chip_slots.specs.Chips.{ChipValue};

    ghost Value = { ChipValue };

    ghost view = { λ c. record {
      state = c.state;
      session = c.session;
      generation = c.generation;
      needs_opening = c.needs_opening;
    } };

    ghost invariant = { λ c. c.generation < 2 ^ 64 };
}

impl Chip {
    /// The day and the trust points.
    pub fn state(&self) -> &ChipState
        ensures { result.now ≡ self.now.state }
    {
        &self.state
    }

    /// What was verified since the chip was opened.
    pub fn session(&self) -> &Session
        ensures { result.now ≡ self.now.session }
    {
        &self.session
    }

    /// The number of the state's generation: 0 as it was made, and one more with each change.
    pub fn generation(&self) -> u64
        ensures { result ≡ self.now.generation }
    {
        self.generation
    }
}

/// Opens a chip: makes its memory stable and reads all of it.
///
/// The chip has the trust and the generation that the memory reads as, and an empty session. From then on a crash
/// leaves just what was read. Nothing is written.
///
/// # Errors
///
/// [`ChipRefusal::DiskFault`] where a device call failed, and [`ChipRefusal::NoChip`] exactly where none failed and the
/// length is no memory's or the memory reads as no state. Where a `DiskFault` comes, the disk has counted it; with each
/// other answer the count of faults is as it was, and at least one device call was made.
pub fn open_chip<D: ChipDisk>(disk: &mut D) -> Result<Chip, ChipRefusal>
    requires { 32 ≤ D.spare disk.old }
    ensures chip { IfOk result (λ c. IsOpened c × (is_memory (D.size disk.old) ≡ true)) }
    ensures answer { D.tells disk.old →
        Opens result (reads (D.told disk.old (D.moment disk.old)).bytes) (D.told disk.new (D.moment disk.new)) }
    ensures looked { D.tells disk.old →
        IsLookedAt (D.told disk.old) (D.told disk.new) (D.moment disk.old) (D.moment disk.new) }
    ensures found { result ≢ Err refusal.DiskFault → D.tells disk.old →
        IsFoundIn (D.told disk.old) (D.told disk.new) (D.moment disk.old) (D.moment disk.new) }
    ensures begun { result ≢ Err refusal.DiskFault → D.moment disk.old < D.moment disk.new }
    ensures refusals { IfErr result (λ e. (e ≡ refusal.NoChip) ⊎ (e ≡ refusal.DiskFault)) }
    ensures cause { result ≡ Err refusal.DiskFault → Rose (D.faults disk.old) (D.faults disk.new) }
    ensures quiet { result ≢ Err refusal.DiskFault → D.faults disk.new ≡ D.faults disk.old }
    ensures calls { DeviceCalls D.ChipDisk 17 disk.old disk.new }
{
    match read_memory(disk) {
        Err(_) => Err(ChipRefusal::DiskFault),
        Ok(None) => Err(ChipRefusal::NoChip),
        Ok(Some(Stored { state, generation })) => Ok(Chip {
            state,
            session: Session::new(),
            generation,
            needs_opening: false,
        }),
    }
}
