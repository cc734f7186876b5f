// The keeper over a connection.
ghost use Rattle.std.specs.Prelude.{◌≡◌, false, [], Some, IsTrue, IfOk, IfErr, IfSome};
ghost use Rattle.eac_base.specs.Telling.{Told};
ghost use Rattle.keeper.specs.Rows.{IsStorable, IsStorableSettled};
ghost use Rattle.keeper.specs.Keeping.{Adds, AddAsked, Settles, SettleAsked, Finds, FindAsked, ListsDesk, DeskAsked, ListsHolder, HolderAsked, Counts, CountAsked, FaultRose, ReadingRefused};
ghost use Rattle.sqlite.specs.Files.{file_state};
ghost use Rattle.sqlite.specs.Held.{state};
ghost use Rattle.sqlite.specs.State.{HasCleanDisk};
ghost use Rattle.keeper_sqlite.specs.Kept.{no_schema};
ghost use Rattle.keeper_sqlite.specs.Sound.{KeptSound, KeptSound-prop, told_unique};

use crate::changing;
use crate::reading::{self, refusal_of};
use crate::statements::create;
use holder_reference::{Holder, Reference};
use keeper::{KeepRefusal, Keeper, Row, Rows, Settled, Table};
use sqlite::{Alter, Connection, File, FileStore, MemStore, Unknown};
use std::alloc::Global;
use std::fs;

/// The rows in the one table of a database. They are told while the store is clean and open, where the keeper began
/// with no rows: in memory always, and over a file while nobody else writes it and the disk returns what was written.
#[derive(Drop)]
pub struct SqliteKeeper<S: Alter + Drop> {
    conn: Connection<S>,
    // Whether it is known which rows it began with.
    known: bool,
    faults: u64,
    ghost sound: { KeptSound known (state S.Store conn) } by { KeptSound-prop known (state S.Store conn) },
}

impl SqliteKeeper<MemStore> {
    ghost use Rattle.keeper_sqlite.specs.Shown as shown;

    /// No rows, in memory. They are told from the start.
    pub fn in_memory(alloc: Global) -> Result<SqliteKeeper<MemStore>, KeepRefusal>
        ensures told { IfOk result (λ k. shown.rows k ≡ Some []) }
        ensures faults { IfOk result (λ k. shown.faults k ≡ 0) }
        ensures refused { IfErr result ReadingRefused }
    {
        let mut conn = match Connection::open_in_memory(alloc) {
            Ok(conn) => conn,
            Err(_) => return Err(KeepRefusal::NoMemory),
        };
        match create(&mut conn) {
            Ok(_) => Ok(SqliteKeeper {
                conn,
                known: true,
                faults: 0,
            }),
            Err(error) => Err(refusal_of(error)),
        }
    }
}

// A database in a file that is made anew: it has no table. That no file was there is asked of the system, and no proof
// shows it; over one that held something the store is never clean, as `Unknown` says.
fn make(rt: &HostRuntime, path: &str) -> Result<Connection<FileStore<File>>, KeepRefusal>
    ensures empty { IfOk result (λ c. HasCleanDisk (file_state c) → (file_state c).now.schema ≡ no_schema) }
    ensures autocommit { IfOk result (λ c. (file_state c).in_transaction ≡ false) }
    ensures refused { IfErr result ReadingRefused }
{
    if !matches!(fs::exists(rt, path), Ok(false)) {
        return Err(KeepRefusal::Failed);
    }
    match Connection::open_from(rt, path, false, Unknown) {
        Ok(conn) => Ok(conn),
        Err((error, _)) => Err(refusal_of(error)),
    }
}

impl SqliteKeeper<FileStore<File>> {
    ghost use Rattle.keeper_sqlite.specs.Shown as shown;

    /// A database in a new file at the path, with the table. It is `Failed` where something lies there.
    pub fn create_at(
        rt: &HostRuntime,
        path: &str,
    ) -> Result<SqliteKeeper<FileStore<File>>, KeepRefusal>
        ensures told { IfOk result (λ k. IfSome (shown.rows k) (λ rows. rows ≡ [])) }
        ensures faults { IfOk result (λ k. shown.faults k ≡ 0) }
        ensures refused { IfErr result ReadingRefused }
    {
        let mut conn = make(rt, path)?;
        match create(&mut conn) {
            Ok(_) => Ok(SqliteKeeper {
                conn,
                known: true,
                faults: 0,
            }),
            Err(error) => Err(refusal_of(error)),
        }
    }

    /// The database in the file at the path, with the table that it has. It is `Failed` where nothing lies there. What
    /// the file held is not known, so its rows are never told.
    pub fn open_at(
        rt: &HostRuntime,
        path: &str,
    ) -> Result<SqliteKeeper<FileStore<File>>, KeepRefusal>
        ensures faults { IfOk result (λ k. shown.faults k ≡ 0) }
        ensures refused { IfErr result ReadingRefused }
    {
        if !matches!(fs::exists(rt, path), Ok(true)) {
            return Err(KeepRefusal::Failed);
        }
        match Connection::open(rt, path) {
            Ok(conn) => Ok(SqliteKeeper {
                conn,
                known: false,
                faults: 0,
            }),
            Err(error) => Err(refusal_of(error)),
        }
    }
}

/// Counts a call that failed.
fn note<T>(faults: &mut u64, answer: &Result<T, KeepRefusal>)
    ensures { FaultRose faults.old faults.new answer.now }
{
    if let Err(KeepRefusal::Failed) = answer {
        *faults = faults.saturating_add(1);
    }
}

impl<S: Alter + Drop> Keeper for SqliteKeeper<S> {
    ghost use Rattle.keeper_sqlite.specs.Shown as shown;

    ghost rows = { shown.rows };

    ghost faults = { shown.faults };

    ghost unique = { λ k. told_unique _ _ };

    fn add(&mut self, alloc: Global, row: &Row) -> Result<(), KeepRefusal> {
        let result = changing::add(&mut self.conn, alloc, row);
        note(&mut self.faults, &result);
        result
    }

    fn settle(
        &mut self,
        alloc: Global,
        desk: u32,
        reference: &Reference,
        settled: &Settled,
    ) -> Result<(), KeepRefusal> {
        let result = changing::settle(&mut self.conn, alloc, desk, reference, settled);
        note(&mut self.faults, &result);
        result
    }

    fn find(
        &mut self,
        alloc: Global,
        table: Table,
        desk: u32,
        reference: &Reference,
    ) -> Result<Option<Row>, KeepRefusal> {
        let result = reading::find(&mut self.conn, alloc, table, desk, reference);
        note(&mut self.faults, &result);
        result
    }

    fn of_desk(&mut self, alloc: Global, table: Table, desk: u32) -> Result<Rows, KeepRefusal> {
        let result = reading::of_desk(&mut self.conn, alloc, table, desk);
        note(&mut self.faults, &result);
        result
    }

    fn of_holder(
        &mut self,
        alloc: Global,
        table: Table,
        desk: u32,
        holder: &Holder,
    ) -> Result<Rows, KeepRefusal> {
        let result = reading::of_holder(&mut self.conn, alloc, table, desk, holder);
        note(&mut self.faults, &result);
        result
    }

    fn count(&mut self, _alloc: Global, table: Table, desk: u32) -> Result<u64, KeepRefusal> {
        let result = reading::count(&mut self.conn, table, desk);
        note(&mut self.faults, &result);
        result
    }
}

#[cfg(test)]
impl SqliteKeeper<MemStore> {
    /// The keeper of whatever the database holds.
    pub(crate) fn over(conn: Connection<MemStore>) -> SqliteKeeper<MemStore> {
        SqliteKeeper {
            conn,
            known: false,
            faults: 0,
        }
    }

    pub(crate) fn faults(&self) -> u64 {
        self.faults
    }
}
