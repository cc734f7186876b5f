// What no clause says: that the calls find memory, and the answers of worked examples.
//
// Each call of a keeper stands in a function of its own, which hands out plain values, and owned values are let go by a
// call of `drop`: at the end of a scope each list of bytes in them would be proved apart.
ghost use Rattle.std.specs.Prelude.{◌≤◌, length};
ghost use Rattle.keeper.specs.Rows.{IsStorable, IsStorableKey, IsStorableSettled};

use crate::doubles::FadingKeeper;
use crate::{
    CaPart, IssuedPart, KeepRefusal, Keeper, KeeperPlan, MemoryKeeper, Moment, OwnPart, Part, Row,
    Rows, Settled, Table,
};
use chat_rights::{Kind, Rights, Role, Template};
use cv_dates::day_from_text;
use eac_base::Octets;
use holder_reference::{Reference, read_reference};
use signature_provider::{Algorithm, Key};
use std::alloc::Global;
use std::process::Abort;

fn reference(rt: &impl Abort) -> Reference {
    read_reference(b"DEDVBUND00001").expect(rt, "the reference is legal")
}

fn row(rt: &impl Abort, alloc: Global, request: &[u8], day: [u8; 6]) -> Row
    requires { length request.now ≤ 65535 }
    ensures { IsStorable result }
{
    let request = Octets::from_slice(alloc, request).expect(rt, "memory is there");
    Row {
        desk: 0,
        reference: reference(rt),
        part: Part::Register { request, day },
    }
}

fn keeps(found: &Row, bytes: &[u8], on: &[u8; 6]) -> bool {
    match &found.part {
        Part::Register { request, day } => request.as_slice() == bytes && day == on,
        _ => false,
    }
}

fn key(rt: &impl Abort, alloc: Global) -> Key
    ensures { IsStorableKey result }
{
    Key {
        algorithm: Algorithm { arc: 2, last: 3 },
        domain: Octets::new(alloc),
        point: Octets::from_slice(alloc, &[1]).expect(rt, "memory is there"),
        cofactor: Octets::new(alloc),
    }
}

// An own row of party 2 that waits for its certificate.
fn waiting(rt: &impl Abort, alloc: Global) -> Row
    ensures { IsStorable result }
{
    let key = key(rt, alloc);
    let reference = reference(rt);
    Row {
        desk: 2,
        reference,
        part: Part::Own(OwnPart {
            authority: reference.holder(),
            request: Octets::new(alloc),
            key,
            settled: None,
        }),
    }
}

fn settled(rt: &impl Abort, alloc: Global, certificate: &[u8]) -> Settled
    requires { length certificate.now ≤ 65535 }
    ensures { IsStorableSettled result }
{
    let day = day_from_text(b"240101").expect(rt, "the day is legal");
    Settled {
        certificate: Octets::from_slice(alloc, certificate).expect(rt, "memory is there"),
        issuer: reference(rt),
        template: Template {
            kind: Kind::Inspection,
            role: Role::Domestic,
            rights: Rights::from_bits(3).expect(rt, "the rights are legal"),
        },
        from: day,
        until: day,
    }
}

fn has_certificate(found: &Row, bytes: &[u8]) -> bool {
    match &found.part {
        Part::Own(own) => match &own.settled {
            Some(settled) => settled.certificate.as_slice() == bytes,
            None => false,
        },
        _ => false,
    }
}

// The row that came with the refusal `Twice`.
fn kept_row(done: Result<(), KeepRefusal>) -> Option<Row> {
    match done {
        Err(KeepRefusal::Twice(row)) => Some(row),
        _ => None,
    }
}

fn is_done(done: Result<(), KeepRefusal>) -> bool {
    let is_done = done.is_ok();
    drop(done);
    is_done
}

fn is_absent(done: Result<(), KeepRefusal>) -> bool {
    let is_absent = matches!(&done, Err(KeepRefusal::Absent));
    drop(done);
    is_absent
}

fn is_failed(done: Result<(), KeepRefusal>) -> bool {
    let is_failed = matches!(&done, Err(KeepRefusal::Failed));
    drop(done);
    is_failed
}

// How many rows a reading gave.
fn number(found: Result<Rows, KeepRefusal>) -> Option<usize> {
    let number = match &found {
        Ok(rows) => Some(rows.len()),
        Err(_) => None,
    };
    drop(found);
    number
}

// Whether a list takes the row.
fn is_copied(alloc: Global, row: Row) -> bool {
    let mut rows = Rows::new(alloc);
    let is_copied = rows.push(&row).is_ok() && rows.len() == 1;
    drop(rows);
    drop(row);
    is_copied
}

fn empty_keeper(alloc: Global) -> MemoryKeeper {
    MemoryKeeper::new(alloc, KeeperPlan::new(alloc))
}

fn is_first(row: Option<Row>) -> bool {
    let is_first = match &row {
        Some(row) => keeps(row, b"\x01\x02", b"240101"),
        None => false,
    };
    drop(row);
    is_first
}

fn adds_first(rt: &impl Abort, alloc: Global, keeper: &mut MemoryKeeper) -> bool {
    let first = row(rt, alloc, b"\x01\x02", *b"240101");
    let done = keeper.add(alloc, &first);
    drop(first);
    is_done(done)
}

fn answers_second_with_first(rt: &impl Abort, alloc: Global, keeper: &mut MemoryKeeper) -> bool {
    let second = row(rt, alloc, b"\x03", *b"240102");
    let done = keeper.add(alloc, &second);
    drop(second);
    is_first(kept_row(done))
}

fn finds_first(rt: &impl Abort, alloc: Global, keeper: &mut MemoryKeeper) -> bool {
    let reference = reference(rt);
    let found = keeper.find(alloc, Table::Register, 0, &reference);
    is_first(found.ok().flatten())
}

#[test]
fn a_key_that_is_there_is_answered_with_its_row(rt: HostRuntime) {
    let alloc = rt.alloc();
    let mut keeper = empty_keeper(alloc);
    assert!(rt; adds_first(&rt, alloc, &mut keeper));
    assert!(rt; answers_second_with_first(&rt, alloc, &mut keeper));
    assert!(rt; finds_first(&rt, alloc, &mut keeper));
    let count = keeper.count(alloc, Table::Register, 0).ok();
    assert!(rt; matches!(count, Some(1)));
    drop(keeper);
}

fn adds_waiting(rt: &impl Abort, alloc: Global, keeper: &mut MemoryKeeper) -> bool {
    let waiting = waiting(rt, alloc);
    let done = keeper.add(alloc, &waiting);
    drop(waiting);
    is_done(done)
}

fn settle(
    rt: &impl Abort,
    alloc: Global,
    keeper: &mut MemoryKeeper,
    certificate: &[u8],
) -> Result<(), KeepRefusal>
    requires { length certificate.now ≤ 65535 }
{
    let settled = settled(rt, alloc, certificate);
    let reference = reference(rt);
    let done = keeper.settle(alloc, 2, &reference, &settled);
    drop(settled);
    done
}

fn has_first_certificate(row: Option<Row>) -> bool {
    let has_first = match &row {
        Some(row) => has_certificate(row, b"\x01"),
        None => false,
    };
    drop(row);
    has_first
}

#[test]
fn an_own_row_is_settled_once(rt: HostRuntime) {
    let alloc = rt.alloc();
    let mut keeper = empty_keeper(alloc);
    assert!(rt; is_absent(settle(&rt, alloc, &mut keeper, b"\x01")));
    assert!(rt; adds_waiting(&rt, alloc, &mut keeper));
    assert!(rt; is_done(settle(&rt, alloc, &mut keeper, b"\x01")));
    let kept = kept_row(settle(&rt, alloc, &mut keeper, b"\x02"));
    assert!(rt; has_first_certificate(kept));
    drop(keeper);
}

fn of_desk(alloc: Global, keeper: &mut MemoryKeeper) -> Option<usize> {
    number(keeper.of_desk(alloc, Table::Own, 2))
}

fn of_holder(rt: &impl Abort, alloc: Global, keeper: &mut MemoryKeeper) -> Option<usize> {
    let holder = reference(rt).holder();
    number(keeper.of_holder(alloc, Table::Own, 2, &holder))
}

#[test]
fn readings_give_the_rows_of_a_desk_and_of_a_holder(rt: HostRuntime) {
    let alloc = rt.alloc();
    let mut keeper = empty_keeper(alloc);
    assert!(rt; matches!(of_desk(alloc, &mut keeper), Some(0)));
    assert!(rt; matches!(of_holder(&rt, alloc, &mut keeper), Some(0)));
    assert!(rt; adds_waiting(&rt, alloc, &mut keeper));
    assert!(rt; matches!(of_desk(alloc, &mut keeper), Some(1)));
    assert!(rt; matches!(of_holder(&rt, alloc, &mut keeper), Some(1)));
    drop(keeper);
}

fn issued(rt: &impl Abort, alloc: Global) -> Row {
    Row {
        desk: 2,
        reference: reference(rt),
        part: Part::Issued(IssuedPart {
            request: Octets::new(alloc),
            key: key(rt, alloc),
            settled: settled(rt, alloc, b"\x01"),
        }),
    }
}

fn authority(rt: &impl Abort, alloc: Global) -> Row {
    Row {
        desk: 2,
        reference: reference(rt),
        part: Part::Ca(CaPart {
            key: key(rt, alloc),
            settled: settled(rt, alloc, b"\x01"),
        }),
    }
}

#[test]
fn issued_rows_are_copied(rt: HostRuntime) {
    let alloc = rt.alloc();
    assert!(rt; is_copied(alloc, issued(&rt, alloc)));
}

#[test]
fn rows_of_authorities_are_copied(rt: HostRuntime) {
    let alloc = rt.alloc();
    assert!(rt; is_copied(alloc, authority(&rt, alloc)));
}

// A keeper whose first call fails, before its change or after it.
fn failing(rt: &impl Abort, alloc: Global, moment: Moment) -> FadingKeeper {
    let mut plan = KeeperPlan::new(alloc);
    assert!(rt; plan.push((1, moment)).is_ok());
    FadingKeeper::new(MemoryKeeper::new(alloc, plan))
}

// How many rows are there after an adding that failed.
fn rows_after_a_failure(rt: &impl Abort, alloc: Global, moment: Moment) -> Option<u64> {
    let mut keeper = failing(rt, alloc, moment);
    let first = row(rt, alloc, b"\x01", *b"240101");
    let done = keeper.add(alloc, &first);
    drop(first);
    assert!(rt; is_failed(done));
    let count = keeper.count(alloc, Table::Register, 0);
    drop(keeper);
    count.ok()
}

#[test]
fn a_call_fails_before_or_after_its_change(rt: HostRuntime) {
    let alloc = rt.alloc();
    let before = rows_after_a_failure(&rt, alloc, Moment::Before);
    assert!(rt; matches!(before, Some(0)));
    let after = rows_after_a_failure(&rt, alloc, Moment::After);
    assert!(rt; matches!(after, Some(1)));
}
