// What is read of the table.
ghost use Rattle.std.specs.Prelude.{◌≡◌, ◌∷◌, [], ℕ, List, true, Some, IsTrue, IfOk, IfErr, map};
ghost use Rattle.std.specs.List.{All};
ghost use Rattle.keeper.specs.Rows.{kind_of, table_of, is_of_holder, IsStorablePart};
ghost use Rattle.keeper.specs.Keeping.{Finds, FindAsked, ListsDesk, DeskAsked, IsDeskRow, ListsHolder, HolderAsked, Counts, CountAsked, ReadingRefused};
ghost use Rattle.keeper_sqlite.specs.Holding.{Leads};
ghost use Rattle.keeper_sqlite.specs.Looking.{part_of, row_of, IsReadFrom};
ghost use Rattle.keeper_sqlite.specs.ToldRows.{bytes_in};
ghost use Rattle.sqlite.specs.Order.{column};
ghost use Rattle.sqlite.specs.Held.{state};
ghost use Rattle.sqlite_sql.specs.Aggregate.{count};

use crate::body::read_row_body;
use crate::statements::{select_count, select_desk, select_holder, select_row};
use holder_reference::{Holder, Reference, read_reference};
use keeper::{KeepRefusal, Part, Row, Rows, Table};
use sqlite::{Alter, Connection, Error, ErrorCode};
use std::alloc::Global;

pub(crate) fn kind_of(table: Table) -> u32
    ensures { result ≡ kind_of table }
{
    match table {
        Table::Register => 0,
        Table::Issued => 1,
        Table::Own => 2,
        Table::Ca => 3,
    }
}

/// What a refusal by the database is to a caller of the keeper.
pub(crate) fn refusal_of(error: Error) -> KeepRefusal
    ensures { ReadingRefused result }
{
    match error {
        Error::SqliteFailure(ErrorCode::OutOfMemory) => KeepRefusal::NoMemory,
        _ => KeepRefusal::Failed,
    }
}

// ---- rows of an answer

fn bytes_at(given: &sqlite::Row, at: usize) -> Result<Vec<u8>, KeepRefusal>
    ensures bytes { IfOk result (λ b. bytes_in (column given.now at) ≡ Some b.items) }
    ensures refused { IfErr result ReadingRefused }
{
    match given.get(at) {
        Ok(bytes) => Ok(bytes),
        Err(error) => Err(refusal_of(error)),
    }
}

fn part_from(alloc: Global, table: Table, given: &sqlite::Row) -> Result<Part, KeepRefusal>
    ensures read { IfOk result (λ part. part_of table given.now ≡ Some part) }
    ensures storable { IfOk result IsStorablePart }
    ensures table { IfOk result (λ part. table_of part ≡ table) }
    ensures refused { IfErr result ReadingRefused }
{
    let body = bytes_at(given, 1)?;
    match read_row_body(alloc, table, body.as_slice())? {
        Some(part) => Ok(part),
        None => Err(KeepRefusal::Failed),
    }
}

/// The row of a key, which was found by it.
fn found_row(
    alloc: Global,
    table: Table,
    desk: u32,
    reference: &Reference,
    given: &sqlite::Row,
) -> Result<Option<Row>, KeepRefusal>
    ensures read { IfOk result (λ found. IsReadFrom table desk reference.now given.now found) }
    ensures asked { FindAsked table desk reference.now result }
{
    let part = part_from(alloc, table, given)?;
    Ok(Some(Row {
        desk,
        reference: *reference,
        part,
    }))
}

fn row_from(alloc: Global, table: Table, desk: u32, given: &sqlite::Row) -> Result<Row, KeepRefusal>
    ensures read { IfOk result (λ row. row_of table desk given.now ≡ Some row) }
    ensures asked { IfOk result (IsDeskRow table desk) }
    ensures refused { IfErr result ReadingRefused }
{
    let reference = bytes_at(given, 0)?;
    let Ok(reference) = read_reference(reference.as_slice()) else {
        return Err(KeepRefusal::Failed);
    };
    let part = part_from(alloc, table, given)?;
    Ok(Row {
        desk,
        reference,
        part,
    })
}

fn rows_from(
    alloc: Global,
    table: Table,
    desk: u32,
    given: &[sqlite::Row],
) -> Result<Rows, KeepRefusal>
    ensures read { IfOk result (λ rows. map (row_of table desk) given.now ≡ map (λ r. Some r) rows) }
    ensures asked { DeskAsked table desk result }
{
    let mut rows = Rows::new(alloc);
    for stored in given {
        let row = row_from(alloc, table, desk, stored)?;
        rows.push(&row)?;
    }
    Ok(rows)
}

fn are_of_holder(rows: &[Row], holder: &Holder) -> bool
    ensures { IsTrue result → All (λ row. is_of_holder holder.now row ≡ true) rows.now }
{
    rows.iter().all(|row| row.is_of_holder(holder))
}

fn count_from(given: &[sqlite::Row]) -> Result<u64, KeepRefusal>
    ensures read { IfOk result (λ n. (m : ℕ) → given.now ≡ (count m ∷ []) ∷ [] → n ≡ m) }
    ensures asked { CountAsked result }
{
    let [row] = given else {
        return Err(KeepRefusal::Failed);
    };
    let number: Result<u32, Error> = row.get(0);
    match number {
        Ok(number) => Ok(number as u64),
        Err(error) => Err(refusal_of(error)),
    }
}

// ---- the readings

/// The row of a key. The rows are as before.
pub(crate) fn find<S: Alter>(
    conn: &mut Connection<S>,
    alloc: Global,
    table: Table,
    desk: u32,
    reference: &Reference,
) -> Result<Option<Row>, KeepRefusal>
    ensures rows { Leads (state S.Store conn.old) (state S.Store conn.new) (λ before after.
        (after ≡ before) × Finds before table desk reference.now result) }
    ensures asked { FindAsked table desk reference.now result }
{
    let rows = match select_row(conn, kind_of(table), desk, reference.as_slice()) {
        Ok(rows) => rows,
        Err(error) => return Err(refusal_of(error)),
    };
    match rows.as_slice() {
        [] => Ok(None),
        [row, ..] => found_row(alloc, table, desk, reference, row),
    }
}

/// The rows of a table and desk, in the order of adding. The rows are as before.
pub(crate) fn of_desk<S: Alter>(
    conn: &mut Connection<S>,
    alloc: Global,
    table: Table,
    desk: u32,
) -> Result<Rows, KeepRefusal>
    ensures rows { Leads (state S.Store conn.old) (state S.Store conn.new) (λ before after.
        (after ≡ before) × ListsDesk before table desk result) }
    ensures asked { DeskAsked table desk result }
{
    match select_desk(conn, kind_of(table), desk) {
        Ok(rows) => rows_from(alloc, table, desk, rows.as_slice()),
        Err(error) => Err(refusal_of(error)),
    }
}

/// Those of them whose reference is one of this holder. The rows are as before.
pub(crate) fn of_holder<S: Alter>(
    conn: &mut Connection<S>,
    alloc: Global,
    table: Table,
    desk: u32,
    holder: &Holder,
) -> Result<Rows, KeepRefusal>
    ensures rows { Leads (state S.Store conn.old) (state S.Store conn.new) (λ before after.
        (after ≡ before) × ListsHolder before table desk holder.now result) }
    ensures asked { HolderAsked table desk holder.now result }
{
    let rows = match select_holder(conn, kind_of(table), desk, holder.as_slice()) {
        Ok(rows) => rows,
        Err(error) => return Err(refusal_of(error)),
    };
    let found = rows_from(alloc, table, desk, rows.as_slice())?;
    if are_of_holder(found.as_slice(), holder) {
        Ok(found)
    } else {
        Err(KeepRefusal::Failed)
    }
}

/// How many rows a desk has in a table. The rows are as before.
pub(crate) fn count<S: Alter>(
    conn: &mut Connection<S>,
    table: Table,
    desk: u32,
) -> Result<u64, KeepRefusal>
    ensures rows { Leads (state S.Store conn.old) (state S.Store conn.new) (λ before after.
        (after ≡ before) × Counts before table desk result) }
    ensures asked { CountAsked result }
{
    match select_count(conn, kind_of(table), desk) {
        Ok(rows) => count_from(rows.as_slice()),
        Err(error) => Err(refusal_of(error)),
    }
}
