// The keeper of rows, by the list of its rows.
ghost use Rattle.std.specs.Prelude.{◌≡◌, ℕ, List, IfSome};
ghost use Rattle.std.specs.declared.option.Option.{Option};
ghost use Rattle.eac_base.specs.Telling.{Told};
ghost use Rattle.keeper.specs.declared.rows.Row.{Row};
ghost use Rattle.keeper.specs.Rows.{UniqueKeys, IsStorable, IsStorableSettled};
ghost use Rattle.keeper.specs.Keeping.{Adds, AddAsked, Settles, SettleAsked, Finds, FindAsked, ListsDesk, DeskAsked, ListsHolder, HolderAsked, Counts, CountAsked, FaultRose};

use crate::{Row, Rows, Settled, Table};
use eac_base::NoMemory;
use holder_reference::{Holder, Reference};
use std::alloc::{AllocFailed, Global};
use std::error::Error;
use std::fmt;

/// A desk has at most so many rows in one table.
pub const MOST_ROWS: u64 = 100_000;

/// Why a keeper's call did not do what was asked.
#[derive(Debug, Drop)]
pub enum KeepRefusal {
    /// The store failed. An adding or a settling may have been kept nevertheless.
    Failed,
    /// The desk has [`MOST_ROWS`] rows in that table.
    Full,
    /// The key is there or the row is settled, with this row.
    Twice(Row),
    /// No such row is there.
    Absent,
    /// Memory is wanting. The rows are as before.
    NoMemory,
}

impl fmt::Display for KeepRefusal {
    fn fmt<W: fmt::Write>(&self, f: &mut fmt::Formatter<W>) -> fmt::Result {
        f.write_str(match self {
            KeepRefusal::Failed => "the store failed",
            KeepRefusal::Full => "the desk has as many rows in that table as it may have",
            KeepRefusal::Twice(_) => "the key is there, or the row has its certificate",
            KeepRefusal::Absent => "no such row is there",
            KeepRefusal::NoMemory => "memory is wanting",
        })
    }
}

impl Error for KeepRefusal {}

impl From<NoMemory> for KeepRefusal {
    ghost use Rattle.keeper.specs.declared.keeping.KeepRefusal.{KeepRefusal};

    ghost from_gives = { λ _ refusal. refusal ≡ KeepRefusal.NoMemory };

    fn from(_: NoMemory) -> Self {
        KeepRefusal::NoMemory
    }
}

impl<T: Drop> From<AllocFailed<T>> for KeepRefusal {
    ghost use Rattle.keeper.specs.declared.keeping.KeepRefusal.{KeepRefusal};

    ghost from_gives = { λ _ refusal. refusal ≡ KeepRefusal.NoMemory };

    fn from(_: AllocFailed<T>) -> Self {
        KeepRefusal::NoMemory
    }
}

/// Whatever keeps rows. What is said of rows is said where they are told after the call: then they were told before it
/// too. So a keeper may stop telling at any call, and none begins to tell again.
///
/// A keeper that doesn't tell its rows still owes what `asked` and `cause` say: each row that it gives has the table,
/// desk, reference or holder that was asked for and could be added, `Full`, `Twice` and `Absent` come only from the
/// calls that name them here, `Failed` comes only where the count of faults rose, and any other answer leaves the
/// count.
pub trait Keeper {
    /// The rows in the order of adding, where the keeper tells them.
    ghost rows: { Self → Option (List Row) };

    /// How often a call has failed. The count never falls and stays at its last value.
    ghost faults: { Self → ℕ };

    /// Appends a row of which each list of bytes has at most 65,535 bytes and each algorithm has arc 1 or 2 and a last
    /// number of at most 127. In this order, it is `Twice` exactly where its key is there, and `Full` exactly where its
    /// desk has 100,000 rows in its table. After `Failed` the rows are as before or have the row; after any other
    /// refusal they are as before.
    fn add(&mut self, alloc: Global, row: &Row) -> Result<(), KeepRefusal>
        requires { IsStorable row.now }
        ensures told { Told (rows self.old) (rows self.new) (λ before after. Adds before after row.now result) }
        ensures asked { AddAsked row.now result }
        ensures cause { FaultRose (faults self.old) (faults self.new) result };

    /// Gives the own row of a key its certificate, which has at most 65,535 bytes. It is `Absent` exactly where no such
    /// row is there, and `Twice` exactly where it has one. After `Failed` the rows are as before or have the row
    /// settled; after any other refusal they are as before.
    fn settle(
        &mut self,
        alloc: Global,
        desk: u32,
        reference: &Reference,
        settled: &Settled,
    ) -> Result<(), KeepRefusal>
        requires { IsStorableSettled settled.now }
        ensures told { Told (rows self.old) (rows self.new)
            (λ before after. Settles before after desk reference.now settled.now result) }
        ensures asked { SettleAsked desk reference.now result }
        ensures cause { FaultRose (faults self.old) (faults self.new) result };

    /// The row of a key, or none where no row has it. It changes no row.
    fn find(
        &mut self,
        alloc: Global,
        table: Table,
        desk: u32,
        reference: &Reference,
    ) -> Result<Option<Row>, KeepRefusal>
        ensures told { Told (rows self.old) (rows self.new)
            (λ before after. (after ≡ before) × Finds before table desk reference.now result) }
        ensures asked { FindAsked table desk reference.now result }
        ensures cause { FaultRose (faults self.old) (faults self.new) result };

    /// The rows of a desk in a table, in the order of adding. It changes no row.
    fn of_desk(&mut self, alloc: Global, table: Table, desk: u32) -> Result<Rows, KeepRefusal>
        ensures told { Told (rows self.old) (rows self.new)
            (λ before after. (after ≡ before) × ListsDesk before table desk result) }
        ensures asked { DeskAsked table desk result }
        ensures cause { FaultRose (faults self.old) (faults self.new) result };

    /// Those of them whose reference is one of this holder, in the order of adding. It changes no row.
    fn of_holder(
        &mut self,
        alloc: Global,
        table: Table,
        desk: u32,
        holder: &Holder,
    ) -> Result<Rows, KeepRefusal>
        ensures told { Told (rows self.old) (rows self.new)
            (λ before after. (after ≡ before) × ListsHolder before table desk holder.now result) }
        ensures asked { HolderAsked table desk holder.now result }
        ensures cause { FaultRose (faults self.old) (faults self.new) result };

    /// How many rows a desk has in a table. It changes no row.
    fn count(&mut self, alloc: Global, table: Table, desk: u32) -> Result<u64, KeepRefusal>
        ensures told { Told (rows self.old) (rows self.new)
            (λ before after. (after ≡ before) × Counts before table desk result) }
        ensures asked { CountAsked result }
        ensures cause { FaultRose (faults self.old) (faults self.new) result };

    /// No two told rows have one key.
    ghost unique: { (k : Self) → IfSome (rows k) UniqueKeys };
}
