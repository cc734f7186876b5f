//! A chip's memory, which survives a crash at any moment (this project's own; what a chip trusts after BSI TR-03110-3).
//!
//! A [`ChipDisk`] is what the memory lies on. A crash may leave any bytes in what was written since its last sync. The
//! memory has 2 to 16 slots; each holds a gate of one byte and a record of a state with its generation, and the memory
//! reads as the greatest generation behind an open gate. A new state goes to another slot than the newest one's: its
//! gate is closed, its record is written, and the gate is opened by a write of its own, with a sync after each.
//!
//! [`make_chip`] writes the first state, [`open_chip`] reads the memory, and [`Chip::import`] judges a certificate and
//! stores what follows. Each says of every image at every moment from its start to its return what it reads as. No call
//! of a chip takes memory. The functions of `laws` carry this over whole runs of calls.
//!
//! [`MemoryDisk`] keeps every call, fails by a plan, and gives the images that a crash may leave. [`FileDisk`] is a
//! file and tells nothing: what stands there after a crash is the operating system's to keep. Which certificates come,
//! and when a chip is opened, is left to the layers above.
#![tactic(auto)]

mod answers;
mod chip;
mod disk;
pub mod laws;
mod layout;
mod record;
#[cfg(test)]
mod tests;

pub use answers::{ChipRefusal, MakeRefusal};
pub use chip::making::make_chip;
pub use chip::{Chip, open_chip};
pub use disk::ChipDisk;
pub use disk::file::FileDisk;
pub use disk::memory::MemoryDisk;
