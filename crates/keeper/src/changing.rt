// What changes a list of rows and its index.
ghost use Rattle.std.specs.Prelude.{◌≡◌, ◌≢◌, ◌⊎◌, ◌∷◌, ◌++◌, [], Some, None, Err, OnOk, OnErr};
ghost use Rattle.std.specs.List.{All};
ghost use Rattle.keeper.specs.declared.keeping.KeepRefusal.TheVariants.{Failed, Twice, NoMemory as RefusedNoMemory};
ghost use Rattle.keeper.specs.declared.plan.Moment.TheVariants.{After as AfterChange};
ghost use Rattle.keeper.specs.Rows.{kept_row, settled_rows, UniqueKeys, IsStorable, IsStorableSettled};
ghost use Rattle.keeper.specs.Keeping.{Adds, AddAsked, Settles, SettleAsked};
ghost use Rattle.keeper.specs.Planned.{AddsAt, SettlesAt};
ghost use Rattle.keeper.specs.Index.{IsIndex};
ghost use Rattle.keeper.specs.Steps.{Addable, Waits, failed_after};

use crate::index::Index;
use crate::reading::{count_of, row_at};
use crate::{KeepRefusal, MOST_ROWS, Row, Settled, Table};
use eac_base::NoMemory;
use holder_reference::Reference;
use std::alloc::Global;

// The refusal with a row that is there.
fn twice(alloc: Global, kept: &Row) -> KeepRefusal
    ensures { (result ≡ Twice kept.now) ⊎ (result ≡ RefusedNoMemory) }
{
    match kept.copy(alloc) {
        Ok(kept) => KeepRefusal::Twice(kept),
        Err(_) => KeepRefusal::NoMemory,
    }
}

// The answer of a call that fails after its change, or wants memory for it.
fn fail_after(done: Result<(), KeepRefusal>) -> Result<(), KeepRefusal>
    ensures { result ≡ failed_after done }
{
    match done {
        Err(KeepRefusal::NoMemory) => Err(KeepRefusal::NoMemory),
        other => {
            drop(other);
            Err(KeepRefusal::Failed)
        }
    }
}

// Why a row can't be added, where it can't.
fn addable(alloc: Global, rows: &[Row], index: &Index, row: &Row) -> Result<(), KeepRefusal>
    requires rows { All IsStorable rows.now }
    requires index { IsIndex index.now rows.now }
    ensures told { Addable rows.now row.now result }
    ensures asked { AddAsked row.now result }
    ensures own { result ≢ Err Failed }
{
    let table = row.part.table();
    if let Some(kept) = row_at(rows, index, table, row.desk, &row.reference) {
        return Err(twice(alloc, kept));
    }
    if MOST_ROWS <= count_of(rows, index, table, row.desk) as u64 {
        return Err(KeepRefusal::Full);
    }
    Ok(())
}

// Appends a row that may be added.
fn push(alloc: Global, rows: &mut Vec<Row>, index: &mut Index, row: &Row) -> Result<(), NoMemory>
    requires index { IsIndex index.old rows.old.items }
    requires new { kept_row row.now rows.old.items ≡ None }
    ensures pushed { OnOk result (rows.new.items ≡ rows.old.items ++ row.now ∷ []) }
    ensures kept { OnErr result (rows.new.items ≡ rows.old.items) }
    ensures index { IsIndex index.new rows.new.items }
{
    let copy = row.copy(alloc)?;
    rows.reserve(1)?;
    index.file(row, rows.len())?;
    if rows.push(copy).is_err() {
        unreachable!()
    }
    Ok(())
}

fn try_append(
    alloc: Global,
    rows: &mut Vec<Row>,
    index: &mut Index,
    row: &Row,
) -> Result<(), KeepRefusal>
    requires rows { All IsStorable rows.old.items }
    requires index { IsIndex index.old rows.old.items }
    ensures told { Adds rows.old.items rows.new.items row.now result }
    ensures asked { AddAsked row.now result }
    ensures own { result ≢ Err Failed }
    ensures index { IsIndex index.new rows.new.items }
{
    addable(alloc, rows, index, row)?;
    push(alloc, rows, index, row)?;
    Ok(())
}

// The same, and what it keeps of the rows.
pub(crate) fn append(
    alloc: Global,
    rows: &mut Vec<Row>,
    index: &mut Index,
    row: &Row,
) -> Result<(), KeepRefusal>
    requires rows { All IsStorable rows.old.items }
    requires index { IsIndex index.old rows.old.items }
    requires row { IsStorable row.now }
    ensures told { Adds rows.old.items rows.new.items row.now result }
    ensures asked { AddAsked row.now result }
    ensures own { result ≢ Err Failed }
    ensures unique { UniqueKeys rows.old.items → UniqueKeys rows.new.items }
    ensures storable { All IsStorable rows.new.items }
    ensures index { IsIndex index.new rows.new.items }
{
    try_append(alloc, rows, index, row)
}

// The same, but that it fails after its change.
pub(crate) fn append_and_fail(
    alloc: Global,
    rows: &mut Vec<Row>,
    index: &mut Index,
    row: &Row,
) -> Result<(), KeepRefusal>
    requires rows { All IsStorable rows.old.items }
    requires index { IsIndex index.old rows.old.items }
    requires row { IsStorable row.now }
    ensures told { Adds rows.old.items rows.new.items row.now result }
    ensures asked { AddAsked row.now result }
    ensures planned { AddsAt (Some AfterChange) rows.old.items rows.new.items row.now result }
    ensures unique { UniqueKeys rows.old.items → UniqueKeys rows.new.items }
    ensures storable { All IsStorable rows.new.items }
    ensures index { IsIndex index.new rows.new.items }
{
    fail_after(append(alloc, rows, index, row))
}

// Whether the own row of a key waits for its certificate.
fn waits(
    alloc: Global,
    rows: &[Row],
    index: &Index,
    desk: u32,
    reference: &Reference,
) -> Result<(), KeepRefusal>
    requires rows { All IsStorable rows.now }
    requires index { IsIndex index.now rows.now }
    ensures told { Waits rows.now desk reference.now result }
    ensures asked { SettleAsked desk reference.now result }
{
    match row_at(rows, index, Table::Own, desk, reference) {
        Some(row) => {
            if row.part.is_settled() {
                Err(twice(alloc, row))
            } else {
                Ok(())
            }
        }
        None => Err(KeepRefusal::Absent),
    }
}

// Gives the own row of a key its certificate, where it is there.
fn settle_own(rows: &mut [Row], index: &Index, desk: u32, reference: &Reference, settled: Settled)
    requires unique { UniqueKeys rows.old }
    requires index { IsIndex index.now rows.old }
    ensures { rows.new ≡ settled_rows desk reference.now settled rows.old }
{
    if let Some(at) = index.place(Table::Own, desk, reference) {
        rows[at].settle(settled);
    }
}

// Settles a row that waits.
fn try_settle(
    alloc: Global,
    rows: &mut [Row],
    index: &Index,
    desk: u32,
    reference: &Reference,
    settled: &Settled,
) -> Result<(), KeepRefusal>
    requires rows { All IsStorable rows.old }
    requires unique { UniqueKeys rows.old }
    requires index { IsIndex index.now rows.old }
    ensures told { Settles rows.old rows.new desk reference.now settled.now result }
    ensures asked { SettleAsked desk reference.now result }
    ensures own { result ≢ Err Failed }
{
    waits(alloc, rows, index, desk, reference)?;
    let settled = settled.copy(alloc)?;
    settle_own(rows, index, desk, reference, settled);
    Ok(())
}

// The same, and what it keeps of the rows.
pub(crate) fn settle(
    alloc: Global,
    rows: &mut [Row],
    index: &Index,
    desk: u32,
    reference: &Reference,
    settled: &Settled,
) -> Result<(), KeepRefusal>
    requires rows { All IsStorable rows.old }
    requires settled { IsStorableSettled settled.now }
    requires unique { UniqueKeys rows.old }
    requires index { IsIndex index.now rows.old }
    ensures told { Settles rows.old rows.new desk reference.now settled.now result }
    ensures asked { SettleAsked desk reference.now result }
    ensures own { result ≢ Err Failed }
    ensures unique { UniqueKeys rows.new }
    ensures storable { All IsStorable rows.new }
    ensures index { IsIndex index.now rows.new }
{
    try_settle(alloc, rows, index, desk, reference, settled)
}

// The same, but that it fails after its change.
pub(crate) fn settle_and_fail(
    alloc: Global,
    rows: &mut [Row],
    index: &Index,
    desk: u32,
    reference: &Reference,
    settled: &Settled,
) -> Result<(), KeepRefusal>
    requires rows { All IsStorable rows.old }
    requires settled { IsStorableSettled settled.now }
    requires unique { UniqueKeys rows.old }
    requires index { IsIndex index.now rows.old }
    ensures told { Settles rows.old rows.new desk reference.now settled.now result }
    ensures asked { SettleAsked desk reference.now result }
    ensures planned { SettlesAt (Some AfterChange) rows.old rows.new desk reference.now settled.now result }
    ensures unique { UniqueKeys rows.new }
    ensures storable { All IsStorable rows.new }
    ensures index { IsIndex index.now rows.new }
{
    fail_after(settle(alloc, rows, index, desk, reference, settled))
}
