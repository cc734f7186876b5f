// What the events answer.
ghost use Rattle.std.specs.Prelude.{◌≡◌, length, slice_get};
ghost use Rattle.std.specs.Option.{option_copied};

use chat_rights::Rights;
use chip_slots::ChipRefusal;
use chip_verify::{ChipState, Imported};
use cv_dates::Day;
use holder_reference::Reference;
use std::marker::Model;

/// What a chip tells.
#[derive(Debug, Drop)]
pub enum Looked {
    /// What it trusts, and the number of that state's generation.
    Read { state: ChipState, generation: u64 },
    /// There is no chip, or its disk failed.
    NotOpened(ChipRefusal),
}

/// A certificate that a chip took: as what, and the reference of its holder.
#[derive(Clone, Copy, Debug)]
pub struct Taken {
    pub what: Imported,
    pub holder: Reference,
}

/// What came of one certificate.
#[derive(Clone, Copy, Debug)]
pub enum ImportAnswer {
    /// There is no chip, or its disk failed before the import.
    NotOpened(ChipRefusal),
    /// The chip took it, and has this day then.
    Took { taken: Taken, day: Day },
    /// The chip's answer to the import.
    NotTaken(ChipRefusal),
}

/// The rights that a session grants, on the chip's day.
#[derive(Clone, Copy, Debug)]
pub struct Grant {
    pub rights: Rights,
    pub day: Day,
}

/// Certificates that a chip took, in order.
#[derive(Debug, Drop)]
pub struct TakenList {
    taken: Vec<Taken>,
}

impl Model for TakenList {
    ghost use Rattle.std.specs.Prelude.{List};
    ghost use Rattle.chip_events.specs.declared.answers.Taken.{Taken};

    ghost Value = { List Taken };

    ghost view = { λ l. l.taken.items };
}

/// How the showing of certificates ended.
#[derive(Clone, Copy, Debug)]
pub enum ShownEnd {
    /// Each was taken. There is a grant where the session has a terminal.
    AllTaken(Option<Grant>),
    /// The chip's answer to the first that wasn't taken.
    NotTaken(ChipRefusal),
}

/// What came of certificates that were shown.
#[derive(Debug, Drop)]
pub struct Shown {
    pub taken: TakenList,
    pub end: ShownEnd,
}

/// What came of a making.
#[derive(Clone, Copy, Debug)]
pub enum MakeAnswer {
    /// The chip trusts the certificate of this holder.
    Made { holder: Reference },
    /// The bytes are no root for a chip.
    Unfounded,
    /// The disk's length is no memory's.
    WrongSize,
    /// The memory has a state already.
    WasMade,
    DiskFault,
}

impl TakenList {
    /// The certificates of a vector, which is moved.
    pub(crate) fn from_vec(taken: Vec<Taken>) -> TakenList
        ensures { result ≡ taken.items }
    {
        TakenList { taken }
    }

    /// How many there are.
    pub fn len(&self) -> usize
        ensures { result ≡ length self.now }
    {
        self.taken.len()
    }

    /// The one at a place from 0, and none from the length on.
    pub fn get(&self, at: usize) -> Option<&Taken>
        ensures { option_copied result ≡ slice_get self.now at }
    {
        self.taken.get(at)
    }
}
