// What `plan` answers.
ghost use Rattle.std.specs.Prelude.{◌≤◌};

use super::{CALM, Outside, call};
use crate::tool::Status;
use std::alloc::Global;
use std::process::Abort;

const NEED: &[u8] =
    b"need 240101 240131\nterm 14 1\nlive 2\nauthority 240101 240331\nclosed 240116\n";

const PLANNED: &[u8] = b"renewals 3\n240101 240115\n240115 240129\n240130 240213\n";

fn plan(
    rt: &impl Abort,
    alloc: Global,
    outside: &Outside,
    input: &[u8],
    text: &[u8],
) -> (Status, u64)
    requires { 1 ≤ outside.now.most }
{
    call(rt, alloc, &[b"plan".as_slice()], outside, input, text)
}

#[test]
fn needs_are_planned_for_and_faults_named(rt: HostRuntime) {
    let alloc = rt.alloc();
    let table: [(&[u8], Status, &[u8]); 5] = [
        (NEED, Status::Done, PLANNED),
        (
            b"need 240101 240131\nterm 14 1\nlive 1\nauthority 240101 240331\nclosed 240116\n",
            Status::Done,
            b"uncovered 240116\n",
        ),
        (
            b"need 240101 240131\nterm 14 1\nlive 2\nhave 240131\nauthority 240101 240331\n",
            Status::Done,
            b"renewals 0\n",
        ),
        (
            b"need 240101 240131\nterm 14 15\nlive 2\n",
            Status::ScriptFault { line: 2, rule: 2 },
            b"",
        ),
        (b"", Status::ScriptFault { line: 1, rule: 1 }, b""),
    ];
    for (input, status, text) in table {
        let ended = plan(&rt, alloc, &CALM, input, text);
        assert!(rt; ended == (status, 0));
    }
}

#[test]
fn a_plan_ends_with_the_read_or_the_write_that_fails(rt: HostRuntime) {
    let alloc = rt.alloc();
    let unread = Outside {
        read: Some(1),
        ..CALM
    };
    let unwritten = Outside {
        write: Some(1),
        ..CALM
    };
    assert!(rt; plan(&rt, alloc, &unread, NEED, b"") == (Status::ReadFault, 0));
    assert!(rt; plan(&rt, alloc, &unwritten, NEED, b"") == (Status::WriteFault, 0));
}
