// Scripts over parties: the worked examples, and what each failing call leaves.
use super::{
    CALM, FIVE, FOUNDING, Outside, call_with, keeper_of, octets, provider_of, repeated, run,
    run_made, sink_of, source_of,
};
use crate::tool::Status;
use eac_base::{Octets, is_same};
use holder_reference::{Reference, read_reference};
use keeper::doubles::FadingKeeper;
use keeper::{Keeper, MemoryKeeper, Moment, Part, Table};
use signature_provider::{DigestProvider, SignatureProvider};
use std::alloc::Global;
use std::process::Abort;

// An authority, a verifier that is registered there, its request and its certificate.
const SHORT: &[u8] = b"cvca DECVCA ec 03 1096\n\
      dv DEDVBUND\n\
      register DECVCA DEDVBUND domestic 03 90 3 bare\n\
      day 240101\n\
      found DECVCA\n\
      trust DEDVBUND DECVCA\n\
      apply DEDVBUND DECVCA DECVCA\n\
      deliver 1\n\
      deliver 2\n";

const SHORT_JOURNAL: &[u8] = b"5: founded DECVCA00001\n\
      6: trusted DECVCA00001\n\
      7: packet 1 DEDVBUND00001\n\
      8: issued DEDVBUND00001 reply 2\n\
      9: stored DEDVBUND00001\n";

// The verifier's request: 150 bytes, bare, with the authority's reference.
const REQUEST: &[u8] = &[
    0x7f, 0x21, 0x81, 0x92, 0x7f, 0x4e, 0x4c, 0x5f, 0x29, 0x01, 0x00, 0x42, 0x0b, 0x44, 0x45, 0x43,
    0x56, 0x43, 0x41, 0x30, 0x30, 0x30, 0x30, 0x31, 0x7f, 0x49, 0x28, 0x06, 0x0a, 0x04, 0x00, 0x7f,
    0x00, 0x07, 0x02, 0x02, 0x02, 0x02, 0x03, 0x81, 0x01, 0x01, 0x82, 0x01, 0x02, 0x83, 0x01, 0x03,
    0x84, 0x01, 0x04, 0x85, 0x01, 0x05, 0x86, 0x08, 0x00, 0x00, 0x00, 0x00, 0x00, 0x00, 0x00, 0x02,
    0x87, 0x01, 0x01, 0x5f, 0x20, 0x0d, 0x44, 0x45, 0x44, 0x56, 0x42, 0x55, 0x4e, 0x44, 0x30, 0x30,
    0x30, 0x30, 0x31, 0x5f, 0x37, 0x40, 0x00, 0x00, 0x00, 0x00, 0x00, 0x00, 0x00, 0x00, 0x00, 0x00,
    0x00, 0x00, 0x00, 0x00, 0x00, 0x00, 0x00, 0x00, 0x00, 0x00, 0x00, 0x00, 0x00, 0x00, 0x00, 0x00,
    0x00, 0x00, 0x00, 0x00, 0x00, 0x00, 0x00, 0x00, 0x00, 0x00, 0x00, 0x00, 0x00, 0x00, 0x00, 0x00,
    0x00, 0x00, 0x00, 0x00, 0x00, 0x00, 0x00, 0x00, 0x00, 0x00, 0x00, 0x00, 0x00, 0x00, 0x00, 0x00,
    0x00, 0x00, 0x00, 0x00, 0x00, 0x02,
];

// The verifier's certificate: 167 bytes, to 2024-03-31.
const CERTIFICATE: &[u8] = &[
    0x7f, 0x21, 0x81, 0xa3, 0x7f, 0x4e, 0x5d, 0x5f, 0x29, 0x01, 0x00, 0x42, 0x0b, 0x44, 0x45, 0x43,
    0x56, 0x43, 0x41, 0x30, 0x30, 0x30, 0x30, 0x31, 0x7f, 0x49, 0x16, 0x06, 0x0a, 0x04, 0x00, 0x7f,
    0x00, 0x07, 0x02, 0x02, 0x02, 0x02, 0x03, 0x86, 0x08, 0x00, 0x00, 0x00, 0x00, 0x00, 0x00, 0x00,
    0x02, 0x5f, 0x20, 0x0d, 0x44, 0x45, 0x44, 0x56, 0x42, 0x55, 0x4e, 0x44, 0x30, 0x30, 0x30, 0x30,
    0x31, 0x7f, 0x4c, 0x0e, 0x06, 0x09, 0x04, 0x00, 0x7f, 0x00, 0x07, 0x03, 0x01, 0x02, 0x01, 0x53,
    0x01, 0x83, 0x5f, 0x25, 0x06, 0x02, 0x04, 0x00, 0x01, 0x00, 0x01, 0x5f, 0x24, 0x06, 0x02, 0x04,
    0x00, 0x03, 0x03, 0x01, 0x5f, 0x37, 0x40, 0x00, 0x00, 0x00, 0x00, 0x00, 0x00, 0x00, 0x00, 0x00,
    0x00, 0x00, 0x00, 0x00, 0x00, 0x00, 0x00, 0x00, 0x00, 0x00, 0x00, 0x00, 0x00, 0x00, 0x00, 0x00,
    0x00, 0x00, 0x00, 0x00, 0x00, 0x00, 0x00, 0x00, 0x00, 0x00, 0x00, 0x00, 0x00, 0x00, 0x00, 0x00,
    0x00, 0x00, 0x00, 0x00, 0x00, 0x00, 0x00, 0x00, 0x00, 0x00, 0x00, 0x00, 0x00, 0x00, 0x00, 0x00,
    0x00, 0x00, 0x00, 0x00, 0x00, 0x00, 0x03,
];

// The worked script, over two chips.
pub const WORKED: &[u8] = b"cvca DECVCA ec 03 1096\n\
      cvca FRCVCA ec 03 1096\n\
      dv DEDVBUND\n\
      terminal DETERM1\n\
      register DECVCA DEDVBUND domestic 03 90 3 bare\n\
      register FRCVCA DEDVBUND foreign 01 30 3 home:DECVCA\n\
      register DEDVBUND DETERM1 terminal 03 7 4 bare\n\
      day 240101\n\
      found DECVCA\n\
      found FRCVCA\n\
      trust FRCVCA DECVCA\n\
      trust DEDVBUND DECVCA\n\
      trust DEDVBUND FRCVCA\n\
      trust DETERM1 DECVCA\n\
      trust DETERM1 FRCVCA\n\
      make 0 DECVCA\n\
      make 1 FRCVCA\n\
      apply DEDVBUND DECVCA DECVCA\n\
      deliver 1\n\
      deliver 1\n\
      deliver 2\n\
      apply DEDVBUND FRCVCA FRCVCA\n\
      deliver 4\n\
      deliver 5\n\
      fetch DETERM1 DEDVBUND\n\
      deliver 6\n\
      deliver 7\n\
      apply DETERM1 DEDVBUND DECVCA\n\
      deliver 8\n\
      deliver 9\n\
      apply DETERM1 DEDVBUND FRCVCA\n\
      deliver 10\n\
      deliver 11\n\
      present 0 DETERM1\n\
      present 1 DETERM1\n\
      day 240108\n\
      link DECVCA\n\
      apply DETERM1 DEDVBUND DECVCA\n\
      deliver 12\n\
      deliver 13\n\
      present 0 DETERM1\n\
      push DECVCA DETERM1\n\
      deliver 14\n\
      fetch DEDVBUND DECVCA\n\
      deliver 16\n\
      deliver 17\n\
      apply DEDVBUND DECVCA DECVCA\n\
      deliver 18\n\
      deliver 19\n\
      push DEDVBUND DETERM1\n\
      deliver 20\n\
      apply DETERM1 DEDVBUND DECVCA\n\
      deliver 22\n\
      deliver 23\n\
      present 0 DETERM1\n\
      look 0\n\
      deliver 18\n\
      present 0 DETERM1\n\
      deliver 25\n";

pub const WORKED_JOURNAL: &[u8] = b"9: founded DECVCA00001\n\
      10: founded FRCVCA00001\n\
      11: trusted DECVCA00001\n\
      12: trusted DECVCA00001\n\
      13: trusted FRCVCA00001\n\
      14: trusted DECVCA00001\n\
      15: trusted FRCVCA00001\n\
      16: made DECVCA00001\n\
      17: made FRCVCA00001\n\
      18: packet 1 DEDVBUND00001\n\
      19: issued DEDVBUND00001 reply 2\n\
      20: kept DEDVBUND00001 reply 3\n\
      21: stored DEDVBUND00001\n\
      22: packet 4 DEDVBUND00002\n\
      23: issued DEDVBUND00002 reply 5\n\
      24: stored DEDVBUND00002\n\
      25: packet 6\n\
      26: list 4 reply 7\n\
      27: ca held DECVCA00001, ca held FRCVCA00001, ca DEDVBUND00001, ca DEDVBUND00002\n\
      28: packet 8 DETERM100001\n\
      29: issued DETERM100001 reply 9\n\
      30: stored DETERM100001\n\
      31: packet 10 DETERM100002\n\
      32: issued DETERM100002 reply 11\n\
      33: stored DETERM100002\n\
      34: verifier DEDVBUND00001, terminal DETERM100001, grant 03 day 240101\n\
      35: verifier DEDVBUND00002, terminal DETERM100002, grant 01 day 240101\n\
      37: linked DECVCA00002\n\
      38: packet 12 DETERM100003\n\
      39: issued DETERM100003 reply 13\n\
      40: stored DETERM100003\n\
      41: verifier DEDVBUND00001, terminal DETERM100003, grant 03 day 240108\n\
      42: packet 14\n\
      43: ca held DECVCA00001, ca DECVCA00002 reply 15\n\
      44: packet 16\n\
      45: list 2 reply 17\n\
      46: ca held DECVCA00001, ca DECVCA00002\n\
      47: packet 18 DEDVBUND00003\n\
      48: issued DEDVBUND00003 reply 19\n\
      49: stored DEDVBUND00003\n\
      50: packet 20\n\
      51: ca held DECVCA00001, ca held FRCVCA00001, ca held DECVCA00002, ca held DEDVBUND00001, \
      ca held DEDVBUND00002, ca DEDVBUND00003 reply 21\n\
      52: packet 22 DETERM100004\n\
      53: issued DETERM100004 reply 23\n\
      54: stored DETERM100004\n\
      55: link DECVCA00002, verifier DEDVBUND00003, terminal DETERM100004, grant 03 day 240108\n\
      56: day 240108 points DECVCA00001 DECVCA00002 generation 2\n\
      57: kept DEDVBUND00003 reply 24\n\
      58: verifier DEDVBUND00003, terminal DETERM100004, grant 03 day 240108\n\
      59: unsent\n";

#[test]
fn the_worked_scripts_have_their_journals(rt: HostRuntime) {
    let alloc = rt.alloc();
    let ended = run(&rt, alloc, &CALM, SHORT, SHORT_JOURNAL);
    assert!(rt; ended == (Status::Done, 6));
    let ended = run(&rt, alloc, &CALM, WORKED, WORKED_JOURNAL);
    assert!(rt; ended == (Status::Done, 52));
}

// ---- rows

// Runs a script over this keeper and provider, and it has to leave this journal.
fn run_over<B: Keeper, P: SignatureProvider>(
    rt: &impl Abort,
    alloc: Global,
    script: &[u8],
    journal: &[u8],
    keeper: &mut B,
    provider: &mut P,
) -> (Status, u64) {
    let source = source_of(rt, alloc, &CALM, script);
    let mut sink = sink_of(rt, alloc, &CALM);
    let list = [b"run".as_slice()];
    let ended = call_with(rt, alloc, &list, source, &mut sink, keeper, provider);
    assert!(rt; sink.bytes() == journal);
    drop(sink);
    ended
}

fn named(rt: &impl Abort, text: &[u8]) -> Reference {
    read_reference(text).expect(rt, "the reference is legal")
}

// The request and the certificate of a party's own row.
fn own_row(
    rt: &impl Abort,
    alloc: Global,
    keeper: &mut MemoryKeeper,
    desk: u32,
    text: &[u8],
) -> (Octets, Octets) {
    let reference = named(rt, text);
    let found = keeper.find(alloc, Table::Own, desk, &reference);
    let Ok(Some(row)) = found else {
        return (Octets::new(alloc), Octets::new(alloc));
    };
    let both = match &row.part {
        Part::Own(own) => match &own.settled {
            Some(settled) => (
                octets(rt, alloc, own.request.as_slice()),
                octets(rt, alloc, settled.certificate.as_slice()),
            ),
            None => (
                octets(rt, alloc, own.request.as_slice()),
                Octets::new(alloc),
            ),
        },
        _ => (Octets::new(alloc), Octets::new(alloc)),
    };
    drop(row);
    both
}

#[test]
fn the_short_script_leaves_these_rows(rt: HostRuntime) {
    let alloc = rt.alloc();
    let mut keeper = keeper_of(&rt, alloc, &CALM);
    let mut provider = provider_of(&rt, alloc, &CALM);
    let ended = run_over(&rt, alloc, SHORT, SHORT_JOURNAL, &mut keeper, &mut provider);
    assert!(rt; ended == (Status::Done, 6));
    let (request, certificate) = own_row(&rt, alloc, &mut keeper, 0, b"DECVCA00001");
    assert!(rt; request.len() == 0);
    assert!(rt; certificate.as_slice() == FOUNDING);
    drop(request);
    drop(certificate);
    let (request, certificate) = own_row(&rt, alloc, &mut keeper, 1, b"DEDVBUND00001");
    assert!(rt; request.as_slice() == REQUEST);
    assert!(rt; certificate.as_slice() == CERTIFICATE);
    drop(request);
    drop(certificate);
    drop(keeper);
    drop(provider);
}

// ---- packets

// The first packet of the short script in hexadecimal digits, as the line of another one.
const SENT_AGAIN: &[u8] =
    b"send DEDVBUND DECVCA 7b2263616c6c223a22526571756573744365727469666963617465222c2272657175657374223a22667947426b6e394f5446\
      3870415142434330524651315a44515441774d44417866306b6f42676f454148384142774943416749446751454267674543\
      677745446841454568514546686767414141414141414141416f6342415638674455524652465a43565535454d4441774d44\
      46664e3041414141414141414141414141414141414141414141414141414141414141414141414141414141414141414141\
      41414141414141414141414141414141414141414141414141414141414141414141414141414143227d\n\
      deliver 3\n";

#[test]
fn a_request_that_is_sent_in_bytes_is_the_same_packet(rt: HostRuntime) {
    let alloc = rt.alloc();
    let script = repeated(&rt, alloc, SHORT, SENT_AGAIN, 1, b"");
    let journal = repeated(
        &rt,
        alloc,
        SHORT_JOURNAL,
        b"10: packet 3\n11: kept DEDVBUND00001 reply 4\n",
        1,
        b"",
    );
    let ended = run_made(&rt, alloc, script, journal.as_slice());
    drop(journal);
    assert!(rt; ended == (Status::Done, 8));
}

// ---- refusals of events

const REFUSING: &[u8] = b"cvca DECVCA ec 03 1096\n\
      dv DEDVBUND\n\
      register DECVCA DEDVBUND domestic 03 90 3 bare\n\
      day 240101\n\
      link DECVCA\n\
      trust DEDVBUND DECVCA\n\
      apply DEDVBUND DECVCA DECVCA\n\
      found DECVCA\n\
      found DECVCA\n\
      link DECVCA\n\
      apply DEDVBUND DECVCA DECVCA\n\
      trust DEDVBUND DECVCA\n\
      trust DEDVBUND DECVCA\n\
      send DEDVBUND DECVCA 00\n\
      deliver 1\n\
      deliver 2\n\
      deliver 3\n\
      day 240102\n\
      link DECVCA\n\
      deliver 1000000\n";

const REFUSING_JOURNAL: &[u8] = b"5: refused unfounded\n\
      6: refused unfounded\n\
      7: refused noauthority\n\
      8: founded DECVCA00001\n\
      9: refused founded\n\
      10: refused sameday\n\
      11: refused noauthority\n\
      12: trusted DECVCA00001\n\
      13: held DECVCA00001\n\
      14: packet 1\n\
      15: malformed reply 2\n\
      16: noted failure_syntax\n\
      17: unsent\n\
      19: linked DECVCA00002\n\
      20: unsent\n";

#[test]
fn events_are_refused_in_these_words(rt: HostRuntime) {
    let alloc = rt.alloc();
    let ended = run(&rt, alloc, &CALM, REFUSING, REFUSING_JOURNAL);
    assert!(rt; ended == (Status::Done, 17));
}

// ---- rules of event lines

// What stands behind five lines of a setup and a day, as line 7, and the least rule that it breaks.
const BEHIND_DAY: [(&[u8], u8); 53] = [
    // 1: no event line in the grammar
    (b"found", 1),
    (b"found DECVCA DECVCA", 1),
    (b"link DE", 1),
    (b"trust DEDVBUND", 1),
    (b"trust DEDVBUND DECVCA FRCVCA", 1),
    (b"apply DEDVBUND DECVCA", 1),
    (b"apply DEDVBUND DECVCA DECVCA DECVCA", 1),
    (b"fetch DEDVBUND", 1),
    (b"push DECVCA", 1),
    (b"send DECVCA DEDVBUND", 1),
    (b"send DECVCA DEDVBUND 0", 1),
    (b"send DECVCA DEDVBUND 0g", 1),
    (b"send DECVCA DE 00", 1),
    (b"deliver", 1),
    (b"deliver 01", 1),
    (b"deliver -1", 1),
    (b"deliver 1 2", 1),
    (b"deliver x", 1),
    (b"make 0", 1),
    (b"make 00 DECVCA", 1),
    (b"present 0", 1),
    (b"import 0 0", 1),
    (b"look", 1),
    (b"look 0 0", 1),
    // 2: N beyond its limits
    (b"deliver 0", 2),
    (b"deliver 1000001", 2),
    (b"deliver 4294967297", 2),
    (b"deliver 18446744073709551617", 2),
    // 6: a party that isn't there, or can't have that part
    (b"found DEDVBUND", 6),
    (b"found FRCVCA", 6),
    (b"link DEIS00001", 6),
    (b"trust FRCVCA DECVCA", 6),
    (b"trust DEDVBUND DEIS00001", 6),
    (b"trust DECVCA DECVCA", 6),
    (b"apply DECVCA DECVCA DECVCA", 6),
    (b"apply DEDVBUND DECVCA DEDVBUND", 6),
    (b"apply DEDVBUND DEDVBUND DECVCA", 6),
    (b"apply DEDVBUND FRCVCA DECVCA", 6),
    (b"apply DEIS00001 DECVCA DECVCA", 6),
    (b"apply DEIS00001 DEDVBUND FRCVCA", 6),
    (b"fetch DECVCA DEDVBUND", 6),
    (b"fetch DEDVBUND DEIS00001", 6),
    (b"push DEIS00001 DEDVBUND", 6),
    (b"push DEDVBUND DECVCA", 6),
    (b"send FRCVCA DECVCA 00", 6),
    (b"send DECVCA FRCVCA 00", 6),
    (b"make 0 DEDVBUND", 6),
    (b"present 0 DEDVBUND", 6),
    // 6: a chip that isn't there
    (b"make 2 DECVCA", 6),
    (b"present 2 DEIS00001", 6),
    (b"import 2 00", 6),
    (b"look 2", 6),
    (b"look 4294967296", 6),
];

#[test]
fn event_lines_are_told_by_their_rules(rt: HostRuntime) {
    let alloc = rt.alloc();
    let head = repeated(&rt, alloc, FIVE, b"day 240101\n", 1, b"");
    for (behind, rule) in BEHIND_DAY {
        let script = repeated(&rt, alloc, head.as_slice(), behind, 1, b"");
        let ended = run_made(&rt, alloc, script, b"");
        assert!(rt; ended == (Status::ScriptFault { line: 7, rule }, 0));
    }
    let script = repeated(
        &rt,
        alloc,
        head.as_slice(),
        b"send DECVCA DEDVBUND ",
        1,
        b"00\n",
    );
    let ended = run_made(&rt, alloc, script, b"7: packet 1\n");
    assert!(rt; ended == (Status::Done, 2));
    drop(head);
}

const EARLY: [(&[u8], u64, u8); 8] = [
    // 4: before the first day, and before the parties are looked for
    (b"found FRCVCA\n", 1, 4),
    (b"link DECVCA\n", 1, 4),
    (b"trust DEDVBUND DECVCA\n", 1, 4),
    (b"apply DEDVBUND DECVCA DECVCA\n", 1, 4),
    (b"fetch DEDVBUND DECVCA\n", 1, 4),
    (b"push DECVCA DEDVBUND\n", 1, 4),
    (b"send DEDVBUND DECVCA 00\n", 1, 4),
    (b"deliver 1\n", 1, 4),
];

#[test]
fn no_event_comes_before_the_first_day(rt: HostRuntime) {
    let alloc = rt.alloc();
    for (script, line, rule) in EARLY {
        let ended = run(&rt, alloc, &CALM, script, b"");
        assert!(rt; ended == (Status::ScriptFault { line, rule }, 0));
    }
}

#[test]
fn bytes_that_are_sent_have_a_limit(rt: HostRuntime) {
    let alloc = rt.alloc();
    let head = repeated(
        &rt,
        alloc,
        FIVE,
        b"day 240101\nsend DECVCA DEDVBUND ",
        1,
        b"",
    );
    let longest = repeated(&rt, alloc, head.as_slice(), b"01", 4096, b"\n");
    let ended = run_made(&rt, alloc, longest, b"7: packet 1\n");
    assert!(rt; ended == (Status::Done, 2));
    let longer = repeated(&rt, alloc, head.as_slice(), b"01", 4097, b"\n");
    let ended = run_made(&rt, alloc, longer, b"");
    assert!(rt; ended == (Status::ScriptFault { line: 7, rule: 2 }, 0));
    drop(head);
}

// ---- failing calls

// Whether the text has these bytes in it.
pub fn has(text: &[u8], part: &[u8]) -> bool {
    for at in 0..text.len() {
        if part.len() <= text.len() - at && is_same(&text[at..at + part.len()], part) {
            return true;
        }
    }
    false
}

// Whether the short script over this keeper and provider tells of this fault. Each of its events is answered.
fn tells<B: Keeper, P: SignatureProvider>(
    rt: &impl Abort,
    alloc: Global,
    fault: &[u8],
    keeper: &mut B,
    provider: &mut P,
) -> bool {
    let source = source_of(rt, alloc, &CALM, SHORT);
    let mut sink = sink_of(rt, alloc, &CALM);
    let list = [b"run".as_slice()];
    let ended = call_with(rt, alloc, &list, source, &mut sink, keeper, provider);
    assert!(rt; ended == (Status::Done, 6));
    let told = has(sink.bytes(), fault);
    assert!(rt; told || is_same(sink.bytes(), SHORT_JOURNAL));
    drop(sink);
    told
}

// Whether the short script tells of a keeper that stops telling its rows where this call of it fails.
fn tells_keeper(rt: &impl Abort, alloc: Global, n: u64, moment: Moment) -> bool {
    let outside = Outside {
        keep: Some((n, moment)),
        ..CALM
    };
    let mut keeper = FadingKeeper::new(keeper_of(rt, alloc, &outside));
    let mut provider = provider_of(rt, alloc, &outside);
    let told = tells(rt, alloc, b"fault keeper", &mut keeper, &mut provider);
    drop(keeper);
    drop(provider);
    told
}

fn tells_provider(rt: &impl Abort, alloc: Global, n: u64) -> bool {
    let outside = Outside {
        sign: Some(n),
        ..CALM
    };
    let mut keeper = keeper_of(rt, alloc, &outside);
    let mut provider = provider_of(rt, alloc, &outside);
    let told = tells(rt, alloc, b"fault provider", &mut keeper, &mut provider);
    drop(keeper);
    drop(provider);
    told
}

#[test]
fn each_call_of_keeper_and_provider_fails_in_turn(rt: HostRuntime) {
    let alloc = rt.alloc();
    let mut before = 0u64;
    let mut after = 0u64;
    let mut signing = 0u64;
    for n in 1..=60 {
        if tells_keeper(&rt, alloc, n, Moment::Before) {
            assert!(rt; before == n - 1);
            before = n;
        }
        if tells_keeper(&rt, alloc, n, Moment::After) {
            assert!(rt; after == n - 1);
            after = n;
        }
        if tells_provider(&rt, alloc, n) {
            assert!(rt; signing == n - 1);
            signing = n;
        }
    }
    assert!(rt; 0 < before && before < 60 && before == after);
    assert!(rt; 0 < signing && signing < 60);
}

// ---- providers

#[test]
fn a_provider_that_tells_nothing_gives_the_same_journal(rt: HostRuntime) {
    let alloc = rt.alloc();
    let mut keeper = keeper_of(&rt, alloc, &CALM);
    let mut provider = DigestProvider::new(alloc, [7; 32]);
    let ended = run_over(
        &rt,
        alloc,
        WORKED,
        WORKED_JOURNAL,
        &mut keeper,
        &mut provider,
    );
    drop(keeper);
    drop(provider);
    assert!(rt; ended == (Status::Done, 52));
}

// The rows and their keys are those of an earlier run. Both providers number their keys from 1, so the authority's key
// is the second one, and the link's new key the first.
#[test]
fn a_key_that_is_not_held_is_told_with_its_reference(rt: HostRuntime) {
    let alloc = rt.alloc();
    let mut keeper = keeper_of(&rt, alloc, &CALM);
    let mut first = provider_of(&rt, alloc, &CALM);
    let script =
        b"cvca DECVCA ec 03 1096\ncvca FRCVCA ec 03 1096\nday 240101\nfound FRCVCA\nfound DECVCA\n";
    let journal = b"4: founded FRCVCA00001\n5: founded DECVCA00001\n";
    let ended = run_over(&rt, alloc, script, journal, &mut keeper, &mut first);
    drop(first);
    assert!(rt; ended == (Status::Done, 3));
    let mut second = provider_of(&rt, alloc, &CALM);
    let script = b"cvca DECVCA ec 03 1096\ncvca FRCVCA ec 03 1096\nday 240102\nlink DECVCA\n";
    let journal = b"4: fault key DECVCA00001\n";
    let ended = run_over(&rt, alloc, script, journal, &mut keeper, &mut second);
    drop(keeper);
    drop(second);
    assert!(rt; ended == (Status::Done, 2));
}

#[test]
fn a_line_that_is_cut_short_stops_the_run(rt: HostRuntime) {
    let alloc = rt.alloc();
    let outside = Outside {
        write: Some(3),
        ..CALM
    };
    let ended = run(&rt, alloc, &outside, SHORT, b"5: founded DECVCA00001\n");
    assert!(rt; ended == (Status::WriteFault, 2));
}
