// What is read of a list of rows by its index.
ghost use Rattle.std.specs.Prelude.{◌≡◌, ◌++◌, IfSome, IfErr, OnOk, length, option_to_list, slice_get};
ghost use Rattle.std.specs.List.{All, filter_map};
ghost use Rattle.std.specs.Option.{option_copied};
ghost use Rattle.keeper.specs.declared.keeping.KeepRefusal.TheVariants.{NoMemory as RefusedNoMemory};
ghost use Rattle.keeper.specs.Rows.{row_at, rows_of, IsStorable};
ghost use Rattle.keeper.specs.Keeping.{Gives, Finds, FindAsked, ListsDesk, DeskAsked, ListsHolder, HolderAsked, IsAsked};
ghost use Rattle.keeper.specs.Index.{IsIndex};

use crate::index::Index;
use crate::{KeepRefusal, Row, Rows, Table};
use holder_reference::{Holder, Reference};
use std::alloc::Global;

// The row at a place.
fn row_in(rows: &[Row], at: usize) -> Option<&Row>
    ensures { option_copied result ≡ slice_get rows.now at }
{
    rows.get(at)
}

// The row of a key.
pub(crate) fn row_at<'a>(
    rows: &'a [Row],
    index: &Index,
    table: Table,
    desk: u32,
    reference: &Reference,
) -> Option<&'a Row>
    requires rows { All IsStorable rows.now }
    requires index { IsIndex index.now rows.now }
    ensures found { option_copied result ≡ row_at table desk reference.now rows.now }
    ensures asked { IfSome result (λ row. IsAsked table desk reference.now row.now) }
{
    match index.place(table, desk, reference) {
        Some(at) => row_in(rows, at),
        None => None,
    }
}

// How many rows a desk has in a table.
pub(crate) fn count_of(rows: &[Row], index: &Index, table: Table, desk: u32) -> usize
    requires { IsIndex index.now rows.now }
    ensures { result ≡ length (rows_of table desk rows.now) }
{
    index.at_desk(table, desk).len()
}

// A copy of the row of a key.
pub(crate) fn copy_at(
    alloc: Global,
    rows: &[Row],
    index: &Index,
    table: Table,
    desk: u32,
    reference: &Reference,
) -> Result<Option<Row>, KeepRefusal>
    requires rows { All IsStorable rows.now }
    requires index { IsIndex index.now rows.now }
    ensures found { Finds rows.now table desk reference.now result }
    ensures asked { FindAsked table desk reference.now result }
    ensures own { IfErr result (λ refusal. refusal ≡ RefusedNoMemory) }
{
    match row_at(rows, index, table, desk, reference) {
        Some(row) => Ok(Some(row.copy(alloc)?)),
        None => Ok(None),
    }
}

// Appends a copy of the row at a place.
fn push_row(found: &mut Rows, rows: &[Row], at: usize) -> Result<(), KeepRefusal>
    ensures pushed { OnOk result (found.new ≡ found.old ++ option_to_list (slice_get rows.now at)) }
    ensures own { IfErr result (λ refusal. refusal ≡ RefusedNoMemory) }
{
    match row_in(rows, at) {
        Some(row) => found.push(row),
        None => Ok(()),
    }
}

// Copies of the rows at these places.
fn copies(alloc: Global, rows: &[Row], places: &[usize]) -> Result<Rows, KeepRefusal>
    ensures given { Gives (filter_map (slice_get rows.now) places.now) result }
    ensures own { IfErr result (λ refusal. refusal ≡ RefusedNoMemory) }
{
    let mut found = Rows::new(alloc);
    for place in places {
        push_row(&mut found, rows, *place)?;
    }
    Ok(found)
}

// Copies of a desk's rows in a table.
pub(crate) fn copy_desk(
    alloc: Global,
    rows: &[Row],
    index: &Index,
    table: Table,
    desk: u32,
) -> Result<Rows, KeepRefusal>
    requires rows { All IsStorable rows.now }
    requires index { IsIndex index.now rows.now }
    ensures given { ListsDesk rows.now table desk result }
    ensures asked { DeskAsked table desk result }
    ensures own { IfErr result (λ refusal. refusal ≡ RefusedNoMemory) }
{
    copies(alloc, rows, index.at_desk(table, desk))
}

// Copies of those of a holder.
pub(crate) fn copy_holder(
    alloc: Global,
    rows: &[Row],
    index: &Index,
    table: Table,
    desk: u32,
    holder: &Holder,
) -> Result<Rows, KeepRefusal>
    requires rows { All IsStorable rows.now }
    requires index { IsIndex index.now rows.now }
    ensures given { ListsHolder rows.now table desk holder.now result }
    ensures asked { HolderAsked table desk holder.now result }
    ensures own { IfErr result (λ refusal. refusal ≡ RefusedNoMemory) }
{
    copies(alloc, rows, index.of_holder(table, desk, holder))
}
