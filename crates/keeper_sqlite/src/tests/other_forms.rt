// A database that holds something else than what the keeper writes: a counted fault, and no row.
use crate::SqliteKeeper;
use crate::statements::{create, insert};
use holder_reference::read_reference;
use keeper::{Keeper, Table};
use sqlite::{Connection, MemStore};
use std::alloc::Global;
use std::process::Abort;

// A registered request 01 02 of 2024-01-01.
const REGISTERED: [u8; 12] = [
    0x80, 0x02, 0x01, 0x02, 0x8b, 0x06, 0x32, 0x34, 0x30, 0x31, 0x30, 0x31,
];

// The same with one byte changed.
const CHANGED: [u8; 12] = [
    0x80, 0x03, 0x01, 0x02, 0x8b, 0x06, 0x32, 0x34, 0x30, 0x31, 0x30, 0x31,
];

// A keeper over a database with one row of desk 0 that was put past it.
fn holding(
    rt: &impl Abort,
    alloc: Global,
    kind: u32,
    reference: &[u8],
    body: &[u8],
) -> SqliteKeeper<MemStore> {
    let mut conn = Connection::open_in_memory(alloc).expect(rt, "memory is there");
    assert!(rt; create(&mut conn).is_ok());
    assert!(rt; insert(&mut conn, kind, 0, b"DEDVBUND", reference, body).is_ok());
    SqliteKeeper::over(conn)
}

// How many rows of the register the list gives, and none where it failed.
fn listed(alloc: Global, keeper: &mut SqliteKeeper<MemStore>) -> Option<usize> {
    let found = keeper.of_desk(alloc, Table::Register, 0);
    let number = match &found {
        Ok(rows) => Some(rows.len()),
        Err(_) => None,
    };
    drop(found);
    number
}

fn is_found(rt: &impl Abort, alloc: Global, keeper: &mut SqliteKeeper<MemStore>) -> bool {
    let reference = read_reference(b"DEDVBUND00001").expect(rt, "the reference is legal");
    let found = keeper.find(alloc, Table::Register, 0, &reference);
    let is_found = matches!(&found, Ok(Some(_)));
    drop(found);
    is_found
}

// Whether the row is found, how many rows the list gives, and how many faults were counted in both.
fn answers(
    rt: &impl Abort,
    alloc: Global,
    kind: u32,
    reference: &[u8],
    body: &[u8],
) -> (bool, Option<usize>, u64) {
    let mut keeper = holding(rt, alloc, kind, reference, body);
    let is_found = is_found(rt, alloc, &mut keeper);
    let listed = listed(alloc, &mut keeper);
    let faults = keeper.faults();
    drop(keeper);
    (is_found, listed, faults)
}

#[test]
fn what_is_not_of_the_form_is_a_counted_fault(rt: HostRuntime) {
    let alloc = rt.alloc();
    let whole = answers(&rt, alloc, 0, b"DEDVBUND00001", &REGISTERED);
    assert!(rt; matches!(whole, (true, Some(1), 0)));
    let body_changed = answers(&rt, alloc, 0, b"DEDVBUND00001", &CHANGED);
    assert!(rt; matches!(body_changed, (false, None, 2)));
    let no_reference = answers(&rt, alloc, 0, b"DEDVBUND0000a", &REGISTERED);
    assert!(rt; matches!(no_reference, (false, None, 1)));
    let of_no_table = answers(&rt, alloc, 4, b"DEDVBUND00001", &REGISTERED);
    assert!(rt; matches!(of_no_table, (false, Some(0), 0)));
}
