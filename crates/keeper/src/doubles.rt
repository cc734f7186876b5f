//! Keepers for the tests of callers.
//!
//! What a caller promises over every [`Keeper`](crate::Keeper) has to hold over these too: one that stops telling its
//! rows at the first refusal, and one that tells none and whose looks come too late.

mod fading;
mod late;

pub use fading::FadingKeeper;
pub use late::LateKeeper;
