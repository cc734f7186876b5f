// How many imports were made on each chip.
ghost use Rattle.std.specs.Prelude.{◌≡◌, ◌<◌, [], ℕ, List, length, OnOk};
ghost use Rattle.eac_net.specs.Counts.{count_at, counts_with};

use chip_events::ImportCount;
use eac_base::NoMemory;
use std::alloc::Global;
use std::marker::Model;

/// A count for each chip, zero for one that has none yet.
#[derive(Debug, Drop)]
pub struct ImportCounts {
    counts: Vec<u64>,
}

impl Model for ImportCounts {
    ghost use Rattle.std.specs.Prelude.{ℕ, List};

    ghost Value = { List ℕ };

    ghost view = { λ c. c.counts.items };
}

impl ImportCounts {
    /// No import on any chip.
    pub fn new(alloc: Global) -> ImportCounts
        ensures { result ≡ [] }
    {
        ImportCounts {
            counts: Vec::new(alloc),
        }
    }

    /// Takes the room for the count of this chip. No count is another one.
    pub fn reserve(&mut self, chip: u32) -> Result<(), NoMemory>
        ensures room { OnOk result (chip < length self.new) }
        ensures kept { (other : ℕ) → count_at self.new other ≡ count_at self.old other }
    {
        'room: while self.counts.len() <= chip as usize {
            self.counts.push(0)?;
        }
        Ok(())
    }

    /// The count of this chip.
    pub fn of(&self, chip: u32) -> ImportCount
        ensures { result ≡ record { chip = chip; count = count_at self.now chip } }
    {
        let count = match self.counts.get(chip as usize) {
            Some(count) => *count,
            None => 0,
        };
        ImportCount { chip, count }
    }

    /// Puts the count of its chip, for which there is room.
    pub fn put(&mut self, count: ImportCount)
        requires { count.chip < length self.old }
        ensures { self.new ≡ counts_with self.old count }
    {
        self.counts[count.chip as usize] = count.count;
    }
}
