// What each keeper answers, tried over a list in memory and over a database in memory.
//
// Each call of a keeper stands in a function of its own, which hands out plain values, and owned values are let go by a
// call of `drop`: at the end of a scope each list of bytes in them would be proved apart.
ghost use Rattle.std.specs.Prelude.{◌≤◌, length};
ghost use Rattle.keeper.specs.Rows.{IsStorable, IsStorableKey, IsStorableSettled};

use crate::SqliteKeeper;
use chat_rights::{Kind, Rights, Role, Template};
use cv_dates::day_from_text;
use eac_base::Octets;
use holder_reference::{Reference, read_reference};
use keeper::{
    KeepRefusal, Keeper, KeeperPlan, MemoryKeeper, OwnPart, Part, Row, Rows, Settled, Table,
};
use signature_provider::{Algorithm, Key};
use std::alloc::Global;
use std::process::Abort;

fn reference(rt: &impl Abort) -> Reference {
    read_reference(b"DEDVBUND00001").expect(rt, "the reference is legal")
}

pub(super) fn registered(rt: &impl Abort, alloc: Global, request: &[u8], day: [u8; 6]) -> Row
    requires { length request.now ≤ 65535 }
    ensures { IsStorable result }
{
    let request = Octets::from_slice(alloc, request).expect(rt, "memory is there");
    Row {
        desk: 0,
        reference: reference(rt),
        part: Part::Register { request, day },
    }
}

fn key(rt: &impl Abort, alloc: Global) -> Key
    ensures { IsStorableKey result }
{
    Key {
        algorithm: Algorithm { arc: 2, last: 3 },
        domain: Octets::new(alloc),
        point: Octets::from_slice(alloc, &[1]).expect(rt, "memory is there"),
        cofactor: Octets::new(alloc),
    }
}

// An own row of party 2 that waits for its certificate.
pub(super) fn waiting(rt: &impl Abort, alloc: Global) -> Row
    ensures { IsStorable result }
{
    let key = key(rt, alloc);
    let reference = reference(rt);
    Row {
        desk: 2,
        reference,
        part: Part::Own(OwnPart {
            authority: reference.holder(),
            request: Octets::new(alloc),
            key,
            settled: None,
        }),
    }
}

fn settled(rt: &impl Abort, alloc: Global) -> Settled
    ensures { IsStorableSettled result }
{
    let from = day_from_text(b"240101").expect(rt, "the day is legal");
    let until = day_from_text(b"240108").expect(rt, "the day is legal");
    Settled {
        certificate: Octets::from_slice(alloc, &[1]).expect(rt, "memory is there"),
        issuer: reference(rt),
        template: Template {
            kind: Kind::Inspection,
            role: Role::Domestic,
            rights: Rights::from_bits(3).expect(rt, "the rights are legal"),
        },
        from,
        until,
    }
}

// ---- what every keeper answers, tried over each

fn is_done(done: Result<(), KeepRefusal>) -> bool {
    let is_done = done.is_ok();
    drop(done);
    is_done
}

fn is_absent(done: Result<(), KeepRefusal>) -> bool {
    let is_absent = matches!(&done, Err(KeepRefusal::Absent));
    drop(done);
    is_absent
}

// The row that came with the refusal `Twice`.
fn kept_row(done: Result<(), KeepRefusal>) -> Option<Row> {
    match done {
        Err(KeepRefusal::Twice(row)) => Some(row),
        _ => None,
    }
}

fn is_first(row: Option<Row>) -> bool {
    let is_first = match &row {
        Some(row) => match &row.part {
            Part::Register { request, day } => {
                request.as_slice() == b"\x01\x02".as_slice() && day == b"240101"
            }
            _ => false,
        },
        None => false,
    };
    drop(row);
    is_first
}

fn has_certificate(row: Option<Row>) -> bool {
    let has_certificate = match &row {
        Some(row) => row.part.is_settled(),
        None => false,
    };
    drop(row);
    has_certificate
}

fn number(found: Result<Rows, KeepRefusal>) -> Option<usize> {
    let number = match &found {
        Ok(rows) => Some(rows.len()),
        Err(_) => None,
    };
    drop(found);
    number
}

fn lists<K: Keeper>(rt: &impl Abort, alloc: Global, keeper: &mut K, wanted: usize) -> bool {
    let holder = reference(rt).holder();
    let of_desk = number(keeper.of_desk(alloc, Table::Own, 2));
    let of_holder = number(keeper.of_holder(alloc, Table::Own, 2, &holder));
    of_desk == Some(wanted) && of_holder == Some(wanted)
}

fn settles<K: Keeper>(rt: &impl Abort, alloc: Global, keeper: &mut K) -> Result<(), KeepRefusal> {
    let settled = settled(rt, alloc);
    let reference = reference(rt);
    let done = keeper.settle(alloc, 2, &reference, &settled);
    drop(settled);
    done
}

fn adds_waiting<K: Keeper>(rt: &impl Abort, alloc: Global, keeper: &mut K) -> bool {
    let waiting = waiting(rt, alloc);
    let done = keeper.add(alloc, &waiting);
    drop(waiting);
    is_done(done)
}

fn adds<K: Keeper>(
    rt: &impl Abort,
    alloc: Global,
    keeper: &mut K,
    request: &[u8],
    day: [u8; 6],
) -> Result<(), KeepRefusal>
    requires { length request.now ≤ 65535 }
{
    let row = registered(rt, alloc, request, day);
    let done = keeper.add(alloc, &row);
    drop(row);
    done
}

fn finds_settled<K: Keeper>(rt: &impl Abort, alloc: Global, keeper: &mut K) -> bool {
    let reference = reference(rt);
    let found = keeper.find(alloc, Table::Own, 2, &reference);
    has_certificate(found.ok().flatten())
}

fn finds_first<K: Keeper>(rt: &impl Abort, alloc: Global, keeper: &mut K) -> bool {
    let reference = reference(rt);
    let found = keeper.find(alloc, Table::Register, 0, &reference);
    is_first(found.ok().flatten())
}

pub(super) fn answers_a_key_that_is_there<K: Keeper>(
    rt: &impl Abort,
    alloc: Global,
    keeper: &mut K,
) {
    assert!(rt; is_done(adds(rt, alloc, keeper, b"\x01\x02", *b"240101")));
    let again = adds(rt, alloc, keeper, b"\x03", *b"240102");
    assert!(rt; is_first(kept_row(again)));
    assert!(rt; finds_first(rt, alloc, keeper));
    let count = keeper.count(alloc, Table::Register, 0).ok();
    assert!(rt; matches!(count, Some(1)));
}

pub(super) fn settles_a_row_once<K: Keeper>(rt: &impl Abort, alloc: Global, keeper: &mut K) {
    assert!(rt; is_absent(settles(rt, alloc, keeper)));
    assert!(rt; lists(rt, alloc, keeper, 0));
    assert!(rt; adds_waiting(rt, alloc, keeper));
    assert!(rt; lists(rt, alloc, keeper, 1));
    assert!(rt; is_done(settles(rt, alloc, keeper)));
    assert!(rt; has_certificate(kept_row(settles(rt, alloc, keeper))));
}

/// The rows that the two tries before have left.
pub(super) fn has_their_rows<K: Keeper>(rt: &impl Abort, alloc: Global, keeper: &mut K) -> bool {
    finds_first(rt, alloc, keeper) && finds_settled(rt, alloc, keeper)
}

#[test]
fn a_list_in_memory_answers_so(rt: HostRuntime) {
    let alloc = rt.alloc();
    let mut keeper = MemoryKeeper::new(alloc, KeeperPlan::new(alloc));
    answers_a_key_that_is_there(&rt, alloc, &mut keeper);
    settles_a_row_once(&rt, alloc, &mut keeper);
    drop(keeper);
}

#[test]
fn a_database_answers_so(rt: HostRuntime) {
    let alloc = rt.alloc();
    let mut keeper = SqliteKeeper::in_memory(alloc).expect(&rt, "memory is there");
    answers_a_key_that_is_there(&rt, alloc, &mut keeper);
    settles_a_row_once(&rt, alloc, &mut keeper);
    drop(keeper);
}
