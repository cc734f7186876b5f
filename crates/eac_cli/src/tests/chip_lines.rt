// Lines of events of chips: each rule that they break, and the greatest number of a chip.
use super::chips::run_on;
use super::{CALM, FIVE, ended, octets, repeated, run, run_made};
use crate::chips::blank_chips;
use crate::tool::Status;
use eac_base::Octets;
use std::alloc::Global;
use std::process::Abort;

// What stands behind five lines of a setup and a day, as line 7, over two chips, and the least rule that it breaks.
const MAKES: [(&[u8], u8); 28] = [
    // 1: not in the grammar
    (b"make", 1),
    (b"make ", 1),
    (b"make 0", 1),
    (b"make 0 ", 1),
    (b"make  0 DECVCA", 1),
    (b"make 0  DECVCA", 1),
    (b"make 0 DECVCA 0", 1),
    (b"make DECVCA 0", 1),
    (b"make 00 DECVCA", 1),
    (b"make 01 DECVCA", 1),
    (b"make -1 DECVCA", 1),
    (b"make +1 DECVCA", 1),
    (b"make x DECVCA", 1),
    (b"make 0 DE", 1),
    (b"make 0 deCVCA", 1),
    (b"make 0 DECVCA000011", 1),
    (b"Make 0 DECVCA", 1),
    (b"makes 0 DECVCA", 1),
    // 1 before 6
    (b"make 2 DE", 1),
    // 6: a party that isn't there, or is no authority
    (b"make 0 FRCVCA", 6),
    (b"make 0 DECVCA00001", 6),
    (b"make 0 DEDVBUND", 6),
    (b"make 0 DEIS00001", 6),
    // 6: a chip that isn't there
    (b"make 2 DECVCA", 6),
    (b"make 4294967295 DECVCA", 6),
    (b"make 4294967296 DECVCA", 6),
    (b"make 18446744073709551616 DECVCA", 6),
    (b"make 2 FRCVCA", 6),
];

const PRESENTS: [(&[u8], u8); 24] = [
    // 1: not in the grammar
    (b"present", 1),
    (b"present ", 1),
    (b"present 0", 1),
    (b"present 0 ", 1),
    (b"present 0  DEIS00001", 1),
    (b"present 0 DEIS00001 DECVCA", 1),
    (b"present DEIS00001 0", 1),
    (b"present 00 DEIS00001", 1),
    (b"present 01 DEIS00001", 1),
    (b"present -1 DEIS00001", 1),
    (b"present 0 DE", 1),
    (b"present 0 DEIS00001000", 1),
    (b"Present 0 DEIS00001", 1),
    // 1 before 6
    (b"present 2 DE", 1),
    // 6: a party that isn't there, or is no inspection system
    (b"present 0 DEIS00002", 6),
    (b"present 0 DEis", 6),
    (b"present 0 DEDVBUND", 6),
    (b"present 0 DECVCA", 6),
    // 6: a chip that isn't there
    (b"present 2 DEIS00001", 6),
    (b"present 4294967295 DEIS00001", 6),
    (b"present 4294967296 DEIS00001", 6),
    (b"present 4294967297 DEIS00001", 6),
    (b"present 18446744073709551616 DEIS00001", 6),
    (b"present 2 DECVCA", 6),
];

const IMPORTS: [(&[u8], u8); 21] = [
    // 1: not in the grammar
    (b"import", 1),
    (b"import ", 1),
    (b"import 0", 1),
    (b"import 0 ", 1),
    (b"import 0  7F21", 1),
    (b"import 0 7F 21", 1),
    (b"import 7F21 0", 1),
    (b"import 00 7F21", 1),
    (b"import 01 7F21", 1),
    (b"import -1 7F21", 1),
    (b"import 0 7", 1),
    (b"import 0 7F2", 1),
    (b"import 0 7G21", 1),
    (b"import 0 0x7F", 1),
    (b"Import 0 7F21", 1),
    // 1 before 6
    (b"import 2 7", 1),
    // 6: a chip that isn't there
    (b"import 2 7F21", 6),
    (b"import 4294967295 7F21", 6),
    (b"import 4294967296 7F21", 6),
    (b"import 4294967297 7F21", 6),
    (b"import 18446744073709551616 7F21", 6),
];

const LOOKS: [(&[u8], u8); 15] = [
    // 1: not in the grammar
    (b"look", 1),
    (b"look ", 1),
    (b"look 0 ", 1),
    (b"look  0", 1),
    (b"look 0 0", 1),
    (b"look 00", 1),
    (b"look 01", 1),
    (b"look -1", 1),
    (b"look DECVCA", 1),
    (b"Look 0", 1),
    // 6: a chip that isn't there
    (b"look 2", 6),
    (b"look 4294967295", 6),
    (b"look 4294967296", 6),
    (b"look 4294967297", 6),
    (b"look 18446744073709551616", 6),
];

// Whether each of these lines is told by its rule.
fn are_told(rt: &impl Abort, alloc: Global, lines: &[(&[u8], u8)]) -> bool {
    let head = repeated(rt, alloc, FIVE, b"day 240101\n", 1, b"");
    let mut told = true;
    for at in 0..lines.len() {
        let (line, rule) = lines[at];
        let script = repeated(rt, alloc, head.as_slice(), line, 1, b"");
        let ended = run_made(rt, alloc, script, b"");
        told = told && ended == (Status::ScriptFault { line: 7, rule }, 0);
    }
    drop(head);
    told
}

#[test]
fn lines_of_chips_are_told_by_their_rules(rt: HostRuntime) {
    let alloc = rt.alloc();
    assert!(rt; are_told(&rt, alloc, &MAKES));
    assert!(rt; are_told(&rt, alloc, &PRESENTS));
    assert!(rt; are_told(&rt, alloc, &IMPORTS));
    assert!(rt; are_told(&rt, alloc, &LOOKS));
}

// Lines that are right behind the five of a setup and a day, and the answer to each as line 7.
const RIGHT: [(&[u8], &[u8]); 5] = [
    (b"make 1 DECVCA", b"7: refused unfounded\n"),
    (b"present 1 DEIS00001", b"7: nochip\n"),
    (b"import 1 7f21", b"7: nochip\n"),
    (b"import 1 7F21", b"7: nochip\n"),
    (b"look 1", b"7: nochip\n"),
];

#[test]
fn right_lines_of_chips_are_run(rt: HostRuntime) {
    let alloc = rt.alloc();
    let head = repeated(&rt, alloc, FIVE, b"day 240101\n", 1, b"");
    for (line, answer) in RIGHT {
        let script = repeated(&rt, alloc, head.as_slice(), line, 1, b"\n");
        let ended = run_made(&rt, alloc, script, answer);
        assert!(rt; ended == (Status::Done, 2));
    }
    drop(head);
}

// An import of so many bytes on this chip, as line 2.
fn import_of(rt: &impl Abort, alloc: Global, chip: &[u8], bytes: u64) -> Octets {
    let mut head = octets(rt, alloc, b"day 240101\nimport ");
    head.push_all(chip).expect(rt, "memory is there");
    let script = repeated(rt, alloc, head.as_slice(), b" ", 1, b"");
    drop(head);
    let import = repeated(rt, alloc, script.as_slice(), b"7F", bytes, b"\n");
    drop(script);
    import
}

#[test]
fn a_certificate_of_a_line_has_a_limit(rt: HostRuntime) {
    let alloc = rt.alloc();
    let longest = import_of(&rt, alloc, b"1", 4096);
    let ended = run_made(&rt, alloc, longest, b"2: nochip\n");
    assert!(rt; ended == (Status::Done, 2));
    let table: [(&[u8], u64, u8); 4] = [
        (b"1", 4097, 2),
        // the least of two rules
        (b"2", 4097, 2),
        (b"01", 4097, 1),
        (b"2", 4096, 6),
    ];
    for (chip, bytes, rule) in table {
        let script = import_of(&rt, alloc, chip, bytes);
        let ended = run_made(&rt, alloc, script, b"");
        assert!(rt; ended == (Status::ScriptFault { line: 2, rule }, 0));
    }
}

// Lines that are in the grammar. No party and no chip of them is there.
const UNKNOWN: [&[u8]; 4] = [
    b"make 64 FRCVCA\n",
    b"present 64 FRIS00001\n",
    b"import 64 7F21\n",
    b"look 64\n",
];

#[test]
fn no_event_of_a_chip_comes_before_the_first_day(rt: HostRuntime) {
    let alloc = rt.alloc();
    for line in UNKNOWN {
        let ended = run(&rt, alloc, &CALM, line, b"");
        assert!(rt; ended == (Status::ScriptFault { line: 1, rule: 4 }, 0));
    }
}

const ONE_TOO_MANY: [&[u8]; 4] = [
    b"make 0 DECVCA\n",
    b"present 0 DEIS00001\n",
    b"import 0 7F21\n",
    b"look 0\n",
];

// The five lines of the setup, and 20,000 event lines.
#[test]
fn events_of_chips_are_counted(rt: HostRuntime) {
    let alloc = rt.alloc();
    let head = repeated(&rt, alloc, FIVE, b"day 240101\n", 1, b"");
    for last in ONE_TOO_MANY {
        let script = repeated(&rt, alloc, head.as_slice(), b"look 0\n", 19_999, last);
        let ended = run_made(&rt, alloc, script, b"");
        let (line, rule) = (20_006, 7);
        assert!(rt; ended == (Status::ScriptFault { line, rule }, 0));
    }
    drop(head);
}

// Looks at a chip as line 2, over so many chips that aren't made yet.
fn look_over(
    rt: &impl Abort,
    alloc: Global,
    count: u32,
    look: &[u8],
    journal: &[u8],
) -> (Status, u64) {
    let script = repeated(rt, alloc, b"day 240101\n", look, 1, b"\n");
    let mut chips = blank_chips(alloc, count).expect(rt, "memory is there");
    let report = run_on(
        rt,
        alloc,
        &CALM,
        script.as_slice(),
        journal,
        chips.as_mut_slice(),
    );
    drop(script);
    drop(chips);
    ended(report)
}

// How many chips there are, the look at the last one, and the look at the next one.
const COUNTS: [(u32, &[u8], &[u8]); 5] = [
    (1, b"look 0", b"look 1"),
    (2, b"look 1", b"look 2"),
    (10, b"look 9", b"look 10"),
    (11, b"look 10", b"look 11"),
    (64, b"look 63", b"look 64"),
];

#[test]
fn the_greatest_number_is_that_of_the_last_chip(rt: HostRuntime) {
    let alloc = rt.alloc();
    for (count, last, next) in COUNTS {
        let ended = look_over(&rt, alloc, count, last, b"2: nochip\n");
        assert!(rt; ended == (Status::Done, 2));
        let ended = look_over(&rt, alloc, count, next, b"");
        assert!(rt; ended == (Status::ScriptFault { line: 2, rule: 6 }, 0));
    }
    let ended = look_over(&rt, alloc, 0, b"look 0", b"");
    assert!(rt; ended == (Status::ScriptFault { line: 2, rule: 6 }, 0));
}
