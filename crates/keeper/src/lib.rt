//! The rows that the desks keep, and the keeper that they are kept by.
//!
//! There are four tables: what the plain register gave, what a desk issued, a party's own keys with their certificates,
//! and the certificates of authorities. A keeper's rows are one list in the order of adding. Table, desk and reference
//! are together a row's key, and no two rows have one key.
//!
//! [`Keeper`] is the trait of whatever stands behind: a call appends a row, gives an own row its certificate, or reads
//! by key, by desk or by holder. What it says of rows it says where the keeper tells them after the call, so that a
//! store may stop telling at any call. A call answers `Failed` only where the keeper's count of faults rose in it or
//! stands at its last value, any other answer leaves the count, and every row that is given is one that was asked for.
//!
//! [`MemoryKeeper`] keeps a plain list, always tells it, and fails exactly by its plan. In [`doubles`] are keepers for
//! the tests of callers.
//!
//! What a desk's rows mean, and when one may be added, is left to the layers above. Nothing here reads what a row keeps
//! but whether it has its certificate.
#![tactic(auto)]

mod changing;
mod copies;
pub mod doubles;
mod heading;
mod index;
mod keeping;
mod memory;
mod plan;
mod reading;
mod row_list;
mod rows;
#[cfg(test)]
mod tests;

pub use copies::copy_key;
pub use keeping::{KeepRefusal, Keeper, MOST_ROWS};
pub use memory::MemoryKeeper;
pub use plan::{KeeperPlan, Moment};
pub use row_list::Rows;
pub use rows::{CaPart, IssuedPart, OwnPart, Part, Row, Settled, Table};
