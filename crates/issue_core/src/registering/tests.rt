// What no clause says: that the calls find memory, and the answers of worked examples.
use crate::{IssueFault, RegisterAnswer, Rule, register};
use holder_reference::{Reference, read_reference};
use keeper::doubles::FadingKeeper;
use keeper::{KeeperPlan, MemoryKeeper, Moment};
use std::process::Abort;

fn reference(rt: &impl Abort) -> Reference {
    read_reference(b"DEDVBUND00001").expect(rt, "the reference is legal")
}

#[test]
fn a_reference_is_given_once(rt: HostRuntime) {
    let alloc = rt.alloc();
    let mut keeper = MemoryKeeper::new(alloc, KeeperPlan::new(alloc));
    let reference = reference(&rt);
    let issued = register(alloc, *b"240101", &reference, b"\x01\x02", &mut keeper);
    assert_eq!(rt; issued, Ok(RegisterAnswer::Issued(*b"240101")));
    let repeated = register(alloc, *b"240102", &reference, b"\x01\x02", &mut keeper);
    assert_eq!(rt; repeated, Ok(RegisterAnswer::Kept(*b"240101")));
    let other = register(alloc, *b"240102", &reference, b"\x01\x03", &mut keeper);
    assert_eq!(rt; other, Ok(RegisterAnswer::Refused(Rule::Used)));
}

// The adding is the third call of a first request: a look for the row and a count come before it.
#[test]
fn a_repeat_after_a_fault_is_answered_by_what_was_kept(rt: HostRuntime) {
    let alloc = rt.alloc();
    let reference = reference(&rt);
    for (moment, answer) in [
        (Moment::Before, RegisterAnswer::Issued(*b"240102")),
        (Moment::After, RegisterAnswer::Kept(*b"240101")),
    ] {
        let mut plan = KeeperPlan::new(alloc);
        assert!(rt; plan.push((3, moment)).is_ok());
        let mut keeper = FadingKeeper::new(MemoryKeeper::new(alloc, plan));
        let first = register(alloc, *b"240101", &reference, b"\x01", &mut keeper);
        assert_eq!(rt; first, Err(IssueFault::KeeperFault));
        let second = register(alloc, *b"240102", &reference, b"\x01", &mut keeper);
        assert_eq!(rt; second, Ok(answer));
    }
}
