// Texts of needs, and how they come out.
use crate::{NeedRefusal, read_need};
use cv_dates::{Day, day_from_text};
use eac_base::{NoMemory, Octets};
use std::alloc::Global;
use std::process::Abort;
use std::test::Fail;

/// The first line that breaks a rule, and the rule.
fn fault_in(alloc: Global, text: &[u8]) -> Option<(u64, u8)> {
    match read_need(alloc, text) {
        Ok(need) => {
            drop(need);
            None
        }
        Err(NeedRefusal::Fault { line, rule }) => Some((line, rule)),
        Err(NeedRefusal::NoMemory) => Some((0, 0)),
    }
}

/// Texts that break a rule, and the first line that does so with the least rule that it breaks.
const BROKEN: [(&[u8], (u64, u8)); 27] = [
    // texts that end early
    (b"", (1, 1)),
    (b"# a need\n\n", (3, 1)),
    (b"need 240101 240131", (2, 1)),
    (b"need 240101 240131\n", (2, 1)),
    (b"need 240101 240131\nterm 14 1\r\n\n# live 2", (5, 1)),
    // the line `need`
    (b"term 14 1", (1, 1)),
    (b"need 240101", (1, 1)),
    (b"need 240101 240131 240201", (1, 1)),
    (b"need  240101 240131", (1, 1)),
    (b"need 240101 240230", (1, 1)),
    (b"need 240101 2401310", (1, 1)),
    (b"need 240131 240130", (1, 1)),
    (b"\nneed 240101 340108\nterm", (2, 2)),
    // the line `term`
    (b"need 240101 240131\nneed 240101 240131", (2, 1)),
    (b"need 240101 240131\nlive 2", (2, 1)),
    (b"need 240101 240131\nterm 14", (2, 1)),
    (b"need 240101 240131\nterm 014 1", (2, 1)),
    (b"need 240101 240131\nterm 93 -1", (2, 1)),
    (b"need 240101 240131\nterm 0 0", (2, 2)),
    (b"need 240101 240131\nterm 93 1", (2, 2)),
    (b"need 240101 240131\nterm 14 0", (2, 2)),
    (b"need 240101 240131\nterm 14 15", (2, 2)),
    (b"need 240101 240131\nterm 4294967297 1", (2, 2)),
    // the line `live`
    (b"need 240101 240131\nterm 14 1\nlive 2 3", (3, 1)),
    (b"need 240101 240131\nterm 14 1\nlive 0", (3, 2)),
    (b"need 240101 240131\nterm 14 1\nlive 101", (3, 2)),
    (
        b"need 240101 240131\nterm 14 1\nlive 18446744073709551617",
        (3, 2),
    ),
];

#[test]
fn each_way_to_break_a_rule_is_named_by_line_and_least_rule(rt: HostRuntime) {
    let alloc = rt.alloc();
    for (text, fault) in BROKEN {
        assert_eq!(rt; fault_in(alloc, text), Some(fault));
    }
}

/// A need of three lines.
const THREE: &[u8] = b"need 240101 240131\nterm 14 1\nlive 2\n";

fn after_three(alloc: Global, lines: &[u8]) -> Result<Octets, NoMemory> {
    let mut text = Octets::from_slice(alloc, THREE)?;
    text.push_all(lines)?;
    Ok(text)
}

/// Lines that break rule 1 behind those three, and the first line that does so.
const OUT_OF_ORDER: [(&[u8], u64); 11] = [
    (b"live 2", 4),
    (b"need 240101 240131", 4),
    (b"have", 4),
    (b"have 230229", 4),
    (b"have 240101\nhave 240101", 5),
    (b"authority 240101 240131\nhave 240101", 5),
    (b"authority 240101", 4),
    (b"authority 240102 240101", 4),
    (b"closed 240101\n\nauthority 240101 240131", 6),
    (b"closed 240101\nhave 240101", 5),
    (b"closed 240101 240102", 4),
];

#[test]
fn lines_behind_the_first_three_have_their_order(rt: HostRuntime) -> Result<(), Fail> {
    let alloc = rt.alloc();
    for (lines, line) in OUT_OF_ORDER {
        let text = after_three(alloc, lines)?;
        assert_eq!(rt; fault_in(alloc, text.as_slice()), Some((line, 1)));
        drop(text);
    }
    Ok(())
}

/// Texts within all rules: the least and the greatest numbers, comments, carriage returns, and each line left out that
/// may be.
const TAKEN: [&[u8]; 9] = [
    b"need 240101 240101\nterm 1 1\nlive 1",
    b"need 240101 340107\nterm 92 92\nlive 100\n",
    b"# a need\n\nneed 000101 000102\r\nterm 14 1\r\n\r\nlive 2\r\n# end",
    b"need 240101 240131\nterm 14 1\nlive 2\nhave 000101",
    b"need 240101 240131\nterm 14 1\nlive 2\nauthority 240101 240101\nauthority 991231 991231\n",
    b"need 240101 240131\nterm 14 1\nlive 2\nclosed 240229\nclosed 240229\n",
    b"need 240101 240131\nterm 14 1\nlive 2\nhave 240115\nclosed 991231",
    b"need 240101 240131\nterm 14 1\nlive 2\nauthority 000101 991231\nclosed 000101",
    b"need 240101 240131\nterm 14 1\nlive 2\nhave 240115\nauthority 240101 240301\n#\nclosed 240116\n",
];

#[test]
fn texts_within_all_rules_are_taken(rt: HostRuntime) {
    let alloc = rt.alloc();
    for text in TAKEN {
        assert_eq!(rt; fault_in(alloc, text), None);
    }
}

/// So many of these lines behind the first three.
fn repeated(alloc: Global, line: &[u8], count: u32) -> Result<Octets, NoMemory> {
    let mut text = Octets::from_slice(alloc, THREE)?;
    for _ in 0..count {
        text.push_all(line)?;
    }
    Ok(text)
}

#[test]
fn a_hundred_authorities_and_3660_closed_days_are_taken_and_no_more(
    rt: HostRuntime,
) -> Result<(), Fail> {
    let alloc = rt.alloc();
    for (line, count) in [
        (b"authority 240101 240102\n".as_slice(), 100),
        (b"closed 240101\n".as_slice(), 3_660),
    ] {
        let mut text = repeated(alloc, line, count)?;
        assert_eq!(rt; fault_in(alloc, text.as_slice()), None);
        text.push_all(line)?;
        assert_eq!(rt;
            fault_in(alloc, text.as_slice()),
            Some((count as u64 + 4, 2))
        );
        drop(text);
    }
    Ok(())
}

fn day_of(text: &[u8]) -> Result<Day, Fail> {
    Ok(day_from_text(text)?)
}

#[test]
fn a_need_has_what_its_lines_say(rt: HostRuntime) -> Result<(), Fail> {
    let alloc = rt.alloc();
    let need = read_need(
        alloc,
        b"need 240101 240131\nterm 14 3\nlive 2\nhave 240105\nauthority 240101 240331\nauthority 240301 240630\nclosed 240116\n",
    )?;
    assert_eq!(rt;
        (need.first, need.last),
        (day_of(b"240101")?, day_of(b"240131")?)
    );
    assert_eq!(rt; (need.days, need.minimum, need.live), (14, 3, 2));
    assert_eq!(rt; need.have, Some(day_of(b"240105")?));
    assert_eq!(rt; (need.authorities.len(), need.closed.len()), (2, 1));
    assert!(rt; need.authorities.get(1) == Some(&(day_of(b"240301")?, day_of(b"240630")?)));
    assert!(rt; need.closed.get(0) == Some(&day_of(b"240116")?));
    drop(need);
    Ok(())
}
