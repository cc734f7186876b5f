// The bytes of stored forms.
//
// Owned values are let go by a call of `drop`: at the end of a scope each list of bytes in them would be proved apart.
ghost use Rattle.keeper.specs.Rows.{IsStorable};

use crate::tests::keepers::{registered, waiting};
use crate::{read_row_body, write_row_body};
use keeper::{Row, Table};
use std::alloc::Global;
use std::process::Abort;

// A registered request 01 02 of 2024-01-01.
const REGISTERED: [u8; 12] = [
    0x80, 0x02, 0x01, 0x02, 0x8b, 0x06, 0x32, 0x34, 0x30, 0x31, 0x30, 0x31,
];

// An own key 01 of 2.3 that waits for its certificate by DEDVBUND.
const WAITING: [u8; 23] = [
    0x80, 0x00, 0x81, 0x02, 0x02, 0x03, 0x82, 0x00, 0x83, 0x01, 0x01, 0x84, 0x00, 0x85, 0x08, 0x44,
    0x45, 0x44, 0x56, 0x42, 0x55, 0x4e, 0x44,
];

fn is_written_as(rt: &impl Abort, alloc: Global, row: Row, bytes: &[u8]) -> bool
    requires { IsStorable row }
{
    let body = write_row_body(alloc, &row.part).expect(rt, "memory is there");
    let is_written = body.as_slice() == bytes;
    drop(body);
    drop(row);
    is_written
}

fn is_read(rt: &impl Abort, alloc: Global, table: Table, bytes: &[u8]) -> bool {
    let part = read_row_body(alloc, table, bytes).expect(rt, "memory is there");
    let is_read = part.is_some();
    drop(part);
    is_read
}

#[test]
fn a_registered_row_is_a_request_and_a_day(rt: HostRuntime) {
    let alloc = rt.alloc();
    let row = registered(&rt, alloc, &[0x01, 0x02], *b"240101");
    assert!(rt; is_written_as(&rt, alloc, row, &REGISTERED));
    assert!(rt; is_read(&rt, alloc, Table::Register, &REGISTERED));
    assert!(rt; !is_read(&rt, alloc, Table::Register, &REGISTERED[..11]));
    assert!(rt; !is_read(&rt, alloc, Table::Own, &REGISTERED));
}

#[test]
fn an_own_row_waits_without_a_certificate(rt: HostRuntime) {
    let alloc = rt.alloc();
    assert!(rt; is_written_as(&rt, alloc, waiting(&rt, alloc), &WAITING));
    assert!(rt; is_read(&rt, alloc, Table::Own, &WAITING));
    assert!(rt; !is_read(&rt, alloc, Table::Ca, &WAITING));
}
