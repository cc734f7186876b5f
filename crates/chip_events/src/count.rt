// How many imports were made on a chip.
ghost use Rattle.std.specs.Prelude.{◌≡◌};
ghost use Rattle.chip_events.specs.Told.{one_more};

/// A chip's number, and how many imports were made on it. The count stays at its last value.
#[derive(Clone, Copy, Debug, PartialEq, Eq)]
pub struct ImportCount {
    pub chip: u32,
    pub count: u64,
}

impl ImportCount {
    /// The count with one more import.
    pub(crate) fn next(&self) -> ImportCount
        ensures { result ≡ record { chip = self.now.chip; count = one_more self.now.count } }
    {
        ImportCount {
            chip: self.chip,
            count: self.count.saturating_add(1),
        }
    }
}
