// Rows of the plain register: added at one desk of a keeper, found one by one, and read by holder.
ghost use Rattle.std.specs.Prelude.{◌<◌, IfSome};
ghost use Rattle.keeper.specs.Rows.{IsStorable};

use eac_base::Octets;
use holder_reference::{Holder, Reference, read_reference};
use keeper::{KeepRefusal, Keeper, KeeperPlan, MemoryKeeper, Part, Row, Table};
use std::alloc::Global;
use std::fmt;
use std::fmt::Display;

// The rows are of so many holders in turn.
const HOLDERS: u32 = 1000;

/// How many rows each call saw, and what it answered at the end.
#[derive(Debug, Drop)]
pub struct RowReport {
    added: u64,
    found: u64,
    counted: u64,
    of_holders: u64,
    more: &'static str,
    again: &'static str,
}

impl Display for RowReport {
    fn fmt<W: fmt::Write>(&self, f: &mut fmt::Formatter<W>) -> fmt::Result {
        write!(
            f,
            "added {}\nfound {}\ncounted {}\nread by holder {}\none more: {}\nthe first again: {}",
            self.added, self.found, self.counted, self.of_holders, self.more, self.again
        )
    }
}

// The digit of a number at a place: of the ones at 1, of the tens at 10.
fn digit(number: u32, place: u32) -> u8
    requires { 0 < place }
{
    let digit = number / place % 10;
    b'0' + digit as u8
}

// A reference of one of the holders, with a sequence of its own.
fn reference(number: u32) -> Option<Reference> {
    let (holder, sequence) = (number % HOLDERS, number / HOLDERS);
    let bytes = [
        b'D',
        b'E',
        b'D',
        b'V',
        digit(holder, 100),
        digit(holder, 10),
        digit(holder, 1),
        digit(sequence, 10_000),
        digit(sequence, 1000),
        digit(sequence, 100),
        digit(sequence, 10),
        digit(sequence, 1),
    ];
    read_reference(&bytes).ok()
}

fn holder(number: u32) -> Option<Holder> {
    Some(reference(number)?.holder())
}

fn row(alloc: Global, number: u32) -> Option<Row>
    ensures { IfSome result IsStorable }
{
    let request = Octets::from_slice(alloc, &[1, 2, 3, 4]).ok()?;
    Some(Row {
        desk: 0,
        reference: reference(number)?,
        part: Part::Register {
            request,
            day: *b"240101",
        },
    })
}

fn answer(done: Result<(), KeepRefusal>) -> &'static str {
    match done {
        Ok(()) => "ok",
        Err(KeepRefusal::Failed) => "failed",
        Err(KeepRefusal::Full) => "full",
        Err(KeepRefusal::Twice(_)) => "twice",
        Err(KeepRefusal::Absent) => "absent",
        Err(KeepRefusal::NoMemory) => "no memory",
    }
}

fn add<K: Keeper>(alloc: Global, keeper: &mut K, number: u32) -> &'static str {
    match row(alloc, number) {
        Some(row) => answer(keeper.add(alloc, &row)),
        None => "no memory",
    }
}

fn added<K: Keeper>(alloc: Global, keeper: &mut K, number: u32) -> u64 {
    let mut added: u64 = 0;
    for n in 0..number {
        if add(alloc, keeper, n) == "ok" {
            added = added.wrapping_add(1);
        }
    }
    added
}

fn found<K: Keeper>(alloc: Global, keeper: &mut K, number: u32) -> Option<u64> {
    let mut found: u64 = 0;
    for n in 0..number {
        let row = keeper.find(alloc, Table::Register, 0, &reference(n)?);
        if row.ok().flatten().is_some() {
            found = found.wrapping_add(1);
        }
    }
    Some(found)
}

fn of_holders(alloc: Global, keeper: &mut MemoryKeeper) -> Option<u64> {
    let mut read: u64 = 0;
    for n in 0..HOLDERS {
        let rows = keeper
            .of_holder(alloc, Table::Register, 0, &holder(n)?)
            .ok()?;
        read = read.wrapping_add(rows.len() as u64);
    }
    Some(read)
}

/// Adds so many rows to a keeper and finds each of them: how many calls did.
pub fn added_and_found<K: Keeper>(alloc: Global, keeper: &mut K, number: u32) -> Option<u64> {
    let added = added(alloc, keeper, number);
    let found = found(alloc, keeper, number)?;
    Some(added.wrapping_add(found))
}

/// Adds so many rows, finds each, and reads those of each holder; then adds one more, and the first again.
pub fn work_on(alloc: Global, number: u32) -> Option<RowReport> {
    let mut keeper = MemoryKeeper::new(alloc, KeeperPlan::new(alloc));
    let added = added(alloc, &mut keeper, number);
    let found = found(alloc, &mut keeper, number)?;
    let counted = keeper.count(alloc, Table::Register, 0).ok()?;
    let of_holders = of_holders(alloc, &mut keeper)?;
    let more = add(alloc, &mut keeper, number);
    let again = add(alloc, &mut keeper, 0);
    Some(RowReport {
        added,
        found,
        counted,
        of_holders,
        more,
        again,
    })
}
