// What changes the rows of the table.
ghost use Rattle.std.specs.Prelude.{◌≡◌, ◌∷◌, [], ◌++◌, List, None, IfOk, IfErr};
ghost use Rattle.keeper.specs.declared.rows.Row.{Row};
ghost use Rattle.keeper.specs.declared.rows.Settled.{Settled};
ghost use Rattle.keeper.specs.Rows.{kept_row, settled_part, settled_rows, IsStorable, IsStorablePart, IsStorableSettled};
ghost use Rattle.keeper.specs.Keeping.{Adds, AddAsked, Settles, SettleAsked, MaySettle, ReadingRefused};
ghost use Rattle.keeper_sqlite.specs.Kept.{IsTold};
ghost use Rattle.keeper_sqlite.specs.Holding.{Holding, Reaches, Leads, Changes};
ghost use Rattle.sqlite.specs.Held.{state};

use crate::body::write_row_body;
use crate::reading::{count, find, kind_of, refusal_of};
use crate::statements::{insert, update};
use eac_base::NoMemory;
use holder_reference::Reference;
use keeper::{KeepRefusal, MOST_ROWS, OwnPart, Part, Row, Settled, Table};
use sqlite::{Alter, Connection};
use std::alloc::Global;

/// Adds a row at the end whose key isn't there.
fn append<S: Alter>(conn: &mut Connection<S>, alloc: Global, row: &Row) -> Result<(), KeepRefusal>
    requires { IsStorable row.now }
    ensures told { IsTold (state S.Store conn.new) → IsTold (state S.Store conn.old) }
    ensures rows { IsTold (state S.Store conn.new) → (rows : List Row) → Holding (state S.Store conn.old) rows
        → kept_row row.now rows ≡ None
        → Reaches (state S.Store conn.new) (λ after. Changes rows (rows ++ row.now ∷ []) after result) }
    ensures refused { IfErr result ReadingRefused }
{
    let body = write_row_body(alloc, &row.part)?;
    let holder = row.reference.holder();
    match insert(
        conn,
        kind_of(row.part.table()),
        row.desk,
        holder.as_slice(),
        row.reference.as_slice(),
        body.as_slice(),
    ) {
        Ok(_) => Ok(()),
        Err(error) => Err(refusal_of(error)),
    }
}

/// Adds a row: it is `Twice` where its key is there, and `Full` where its desk has as many rows in its table as it may.
pub(crate) fn add<S: Alter>(
    conn: &mut Connection<S>,
    alloc: Global,
    row: &Row,
) -> Result<(), KeepRefusal>
    requires { IsStorable row.now }
    ensures rows { Leads (state S.Store conn.old) (state S.Store conn.new) (λ before after.
        Adds before after row.now result) }
    ensures asked { AddAsked row.now result }
{
    if let Some(kept) = find(conn, alloc, row.part.table(), row.desk, &row.reference)? {
        return Err(KeepRefusal::Twice(kept));
    }
    let number = count(conn, row.part.table(), row.desk)?;
    if MOST_ROWS <= number {
        return Err(KeepRefusal::Full);
    }
    append(conn, alloc, row)
}

/// The part with its certificate, where it is an own one.
fn with_certificate(alloc: Global, part: Part, settled: &Settled) -> Result<Part, NoMemory>
    ensures { IfOk result (λ p. p ≡ settled_part settled.now part) }
{
    match part {
        Part::Own(own) => Ok(Part::Own(OwnPart {
            authority: own.authority,
            request: own.request,
            key: own.key,
            settled: Some(settled.copy(alloc)?),
        })),
        other => Ok(other),
    }
}

/// Gives the own row of a key, which waits for its certificate, another part.
fn replace<S: Alter>(
    conn: &mut Connection<S>,
    alloc: Global,
    desk: u32,
    reference: &Reference,
    part: &Part,
) -> Result<(), KeepRefusal>
    requires { IsStorablePart part.now }
    ensures told { IsTold (state S.Store conn.new) → IsTold (state S.Store conn.old) }
    ensures rows { IsTold (state S.Store conn.new) → (rows : List Row) → Holding (state S.Store conn.old) rows
        → (may : MaySettle rows desk reference.now) → (settled : Settled) → part.now ≡ settled_part settled may.row.part
        → Reaches (state S.Store conn.new) (λ after.
        Changes rows (settled_rows desk reference.now settled rows) after result) }
    ensures refused { IfErr result ReadingRefused }
{
    let body = write_row_body(alloc, part)?;
    match update(
        conn,
        kind_of(Table::Own),
        desk,
        reference.as_slice(),
        body.as_slice(),
    ) {
        Ok(_) => Ok(()),
        Err(error) => Err(refusal_of(error)),
    }
}

/// Gives an own row its certificate: it is `Absent` where no such row is there, and `Twice` where it has one.
pub(crate) fn settle<S: Alter>(
    conn: &mut Connection<S>,
    alloc: Global,
    desk: u32,
    reference: &Reference,
    settled: &Settled,
) -> Result<(), KeepRefusal>
    requires { IsStorableSettled settled.now }
    ensures rows { Leads (state S.Store conn.old) (state S.Store conn.new) (λ before after.
        Settles before after desk reference.now settled.now result) }
    ensures asked { SettleAsked desk reference.now result }
{
    let Some(row) = find(conn, alloc, Table::Own, desk, reference)? else {
        return Err(KeepRefusal::Absent);
    };
    if row.part.is_settled() {
        return Err(KeepRefusal::Twice(row));
    }
    let part = with_certificate(alloc, row.part, settled)?;
    replace(conn, alloc, desk, reference, &part)
}
