// Rows in the list of a keeper in memory, in a database in memory and in one over a file.

use crate::rows::added_and_found;
use keeper::{KeeperPlan, MemoryKeeper};
use keeper_sqlite::SqliteKeeper;

/// What keeps the rows.
#[derive(Clone, Copy, Debug, PartialEq, Eq)]
pub enum Medium {
    List,
    Memory,
    /// The file `rows.db`, which must not be there yet.
    File,
}

impl Medium {
    pub fn named(word: &str) -> Option<Medium> {
        match word {
            "list" => Some(Medium::List),
            "memory" => Some(Medium::Memory),
            "file" => Some(Medium::File),
            _ => None,
        }
    }
}

fn in_list(rt: &HostRuntime, number: u32) -> Option<u64> {
    let alloc = rt.alloc();
    let mut keeper = MemoryKeeper::new(alloc, KeeperPlan::new(alloc));
    added_and_found(alloc, &mut keeper, number)
}

fn in_memory(rt: &HostRuntime, number: u32) -> Option<u64> {
    let mut keeper = SqliteKeeper::in_memory(rt.alloc()).ok()?;
    added_and_found(rt.alloc(), &mut keeper, number)
}

fn in_file(rt: &HostRuntime, number: u32) -> Option<u64> {
    let mut keeper = SqliteKeeper::create_at(rt, "rows.db").ok()?;
    added_and_found(rt.alloc(), &mut keeper, number)
}

/// Adds so many rows and finds each of them: how many calls did.
pub fn work_on(rt: &HostRuntime, medium: Medium, number: u32) -> Option<u64> {
    match medium {
        Medium::List => in_list(rt, number),
        Medium::Memory => in_memory(rt, number),
        Medium::File => in_file(rt, number),
    }
}
