// Marks on the authorities that walks have met.
ghost use Rattle.std.specs.Prelude.{◌≡◌, ◌<◌, IfOk, length, not, slice_get, set, true};
ghost use Rattle.terminal_desk.specs.Walks.{AreUnmarked};

use eac_base::NoMemory;
use std::alloc::Global;
use std::marker::Model;

/// A mark for each place of a list, seen as the list of them.
#[derive(Drop)]
pub(crate) struct Met {
    marks: Vec<bool>,
}

impl Model for Met {
    ghost use Rattle.std.specs.Prelude.{Bool, List};

    ghost Value = { List Bool };

    ghost view = { λ m. m.marks.items };
}

impl Met {
    /// So many places, all unmarked.
    pub(crate) fn new(alloc: Global, len: usize) -> Result<Met, NoMemory>
        ensures { IfOk result (AreUnmarked len) }
    {
        Ok(Met {
            marks: vec![in alloc; false; len]?,
        })
    }

    /// Marks a place, and says whether it was unmarked.
    pub(crate) fn enter(&mut self, place: usize) -> bool
        requires { place < length self.old }
        ensures new { slice_get self.old place ≡ Some (not result) }
        ensures marked { self.new ≡ set self.old place true }
    {
        let was = self.marks[place];
        self.marks[place] = true;
        !was
    }

    /// Takes all marks away.
    pub(crate) fn forget(&mut self)
        ensures { AreUnmarked (length self.old) self.new }
    {
        'marks: for at in 0..self.marks.len() {
            self.marks[at] = false;
        }
    }
}
