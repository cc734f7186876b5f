//! Events of one chip over one disk: it is made, looked at, given a certificate, shown a terminal's chain (BSI TR-03110-3;
//! the events, their answers and the acknowledgements are this project's own).
//!
//! Each event opens the chip anew, so that nothing but its memory is carried from one to the next. [`make`], [`look`] and
//! [`import`] are events. [`open_for`] and [`show`] are one event together: between them the caller asks who has a chain
//! for the chip's points. An import that was answered Ok is acknowledged, with the disk's number of calls when it returned;
//! the room for that is taken before the import. Each import counts, whatever it was answered.
//!
//! What is told of a chip is plain data (`ChipTold` of `specs/`): its acts, what its disk reads as, and counts. Where the
//! disk tells, each event leads from whatever told state is the disk's to one that is the disk's then, and that accounts for
//! every image that a crash at any moment could leave. Where it tells nothing, some states with the disk's counts lead on in
//! the same way, so that answers, counts and acknowledgements fit together. The functions of `laws` carry this over whole
//! runs.
//!
//! From which rows certificates come, and what is written of an answer, is left to the layers above.
#![tactic(auto)]

mod answers;
mod count;
mod giving;
mod importing;
pub mod laws;
mod looking;
mod making;
mod opening;
mod presenting;
#[cfg(test)]
mod tests;

pub use answers::{Grant, ImportAnswer, Looked, MakeAnswer, Shown, ShownEnd, Taken, TakenList};
pub use count::ImportCount;
pub use importing::import;
pub use looking::look;
pub use making::make;
pub use presenting::{open_for, references, show};
