// What no clause says: that the calls find memory, and the texts and numbers of worked examples.
//
// The tool is called at one place, `report_of`, of which `call_with` gives plain values. Owned values are let go by a
// call of `drop`: at the end of a scope, and at each `?`, every part of them would be proved apart.
ghost use Rattle.std.specs.Prelude.{◌≡◌, ◌≤◌, ◌<◌, Some, None, length};

mod chip_lines;
mod chips;
mod crashes;
mod events;
mod grants;
mod plans;

use crate::chips::blank_chips;
use crate::tool::{Report, Status, run_tool};
use chip_slots::{ChipDisk, MemoryDisk};
use eac_base::{FailPlan, Failed, MemorySink, MemorySource, Octets, Sink, Stream, Words};
use keeper::{Keeper, KeeperPlan, MemoryKeeper, Moment};
use signature_provider::{SignatureProvider, TableProvider};
use std::alloc::Global;
use std::process::Abort;

// Room for every journal of these tests.
const ROOM: u64 = 4096;

// How many chips there are.
const CHIPS: u32 = 2;

const FIRST: &[u8] = b"day 240101\nask DEDVBUND00001 0102\n";

const REPEATED: &[u8] =
    b"day 240101\nask DEDVBUND00001 0102\nday 240102\nask DEDVBUND00001 0102\nask DEDVBUND00001 0103\n";

const REPEATED_JOURNAL: &[u8] =
    b"2: issued DEDVBUND00001 240101\n4: kept DEDVBUND00001 240101\n5: refused 2\n";

/// A sink that takes one byte of each piece.
#[derive(Drop)]
struct Dripping {
    sink: MemorySink,
}

impl Stream for Dripping {
    ghost left = { λ _. None };

    ghost faults = { λ _. 0 };

    ghost reads = { λ _. None };

    ghost taken = { λ s. Some s.sink.taken };

    ghost lost = { λ s. s.sink.faults };
}

impl Sink for Dripping {
    fn write(&mut self, from: &[u8]) -> Result<usize, Failed> {
        match from {
            [first, ..] => self.sink.write(&[*first]),
            [] => Ok(0),
        }
    }
}

/// What the outside of a call does.
#[derive(Clone, Copy)]
struct Outside {
    /// The most bytes that a read gives.
    most: u64,
    /// A place that no read goes over; 0 is none.
    cut: u64,
    /// The read, the write, the keeper's and the provider's call that fail.
    read: Option<u64>,
    write: Option<u64>,
    keep: Option<(u64, Moment)>,
    sign: Option<u64>,
}

/// No call fails.
const CALM: Outside = Outside {
    most: 4096,
    cut: 0,
    read: None,
    write: None,
    keep: None,
    sign: None,
};

fn octets(rt: &impl Abort, alloc: Global, bytes: &[u8]) -> Octets {
    Octets::from_slice(alloc, bytes).expect(rt, "memory is there")
}

fn words_of(rt: &impl Abort, alloc: Global, list: &[&[u8]]) -> Words {
    let mut words = Words::new(alloc);
    for word in list {
        words.push(word).expect(rt, "memory is there");
    }
    words
}

fn plan_of(rt: &impl Abort, alloc: Global, call: Option<u64>) -> FailPlan {
    let mut plan = FailPlan::new(alloc);
    if let Some(call) = call {
        plan.push(call).expect(rt, "memory is there");
    }
    plan
}

fn source_of(rt: &impl Abort, alloc: Global, outside: &Outside, input: &[u8]) -> MemorySource
    requires { 1 ≤ outside.now.most }
{
    let plan = plan_of(rt, alloc, outside.read);
    let input = octets(rt, alloc, input);
    MemorySource::new(input, outside.most, outside.cut, plan)
}

fn sink_of(rt: &impl Abort, alloc: Global, outside: &Outside) -> MemorySink {
    let plan = plan_of(rt, alloc, outside.write);
    MemorySink::new(alloc, ROOM, plan).expect(rt, "memory is there")
}

fn keeper_of(rt: &impl Abort, alloc: Global, outside: &Outside) -> MemoryKeeper {
    let mut plan = KeeperPlan::new(alloc);
    if let Some(call) = outside.keep {
        plan.push(call).expect(rt, "memory is there");
    }
    MemoryKeeper::new(alloc, plan)
}

// The status, and how many events are done.
fn ended(report: Report) -> (Status, u64) {
    let ended = (report.status, report.done);
    drop(report);
    ended
}

// Chips that aren't made yet.
fn chips_of(rt: &impl Abort, alloc: Global) -> Vec<MemoryDisk>
    ensures { length result.items ≡ 2 }
{
    blank_chips(alloc, CHIPS).expect(rt, "memory is there")
}

fn provider_of(rt: &impl Abort, alloc: Global, outside: &Outside) -> TableProvider {
    TableProvider::new(alloc, plan_of(rt, alloc, outside.sign))
}

// Calls the tool with these words over this input, sink, chips, keeper and provider.
fn report_of<K: Sink, D: ChipDisk, B: Keeper, P: SignatureProvider>(
    rt: &impl Abort,
    alloc: Global,
    list: &[&[u8]],
    source: MemorySource,
    sink: &mut K,
    chips: &mut [D],
    keeper: &mut B,
    provider: &mut P,
) -> Report
    requires { length chips.old < 4294967296 }
{
    let words = words_of(rt, alloc, list);
    let mut source = source;
    let report = run_tool(alloc, &words, &mut source, sink, chips, keeper, provider);
    drop(words);
    drop(source);
    report
}

// The same over chips that aren't made yet.
fn call_with<K: Sink, B: Keeper, P: SignatureProvider>(
    rt: &impl Abort,
    alloc: Global,
    list: &[&[u8]],
    source: MemorySource,
    sink: &mut K,
    keeper: &mut B,
    provider: &mut P,
) -> (Status, u64) {
    let mut chips = chips_of(rt, alloc);
    let chips_now = chips.as_mut_slice();
    let report = report_of(rt, alloc, list, source, sink, chips_now, keeper, provider);
    drop(chips);
    ended(report)
}

// The same over a keeper and a provider in memory.
fn call_over<K: Sink>(
    rt: &impl Abort,
    alloc: Global,
    list: &[&[u8]],
    outside: &Outside,
    input: &[u8],
    sink: &mut K,
) -> (Status, u64)
    requires { 1 ≤ outside.now.most }
{
    let source = source_of(rt, alloc, outside, input);
    let mut keeper = keeper_of(rt, alloc, outside);
    let mut provider = provider_of(rt, alloc, outside);
    let ended = call_with(rt, alloc, list, source, sink, &mut keeper, &mut provider);
    drop(keeper);
    drop(provider);
    ended
}

// The same over a sink in memory, which has to have this text in the end.
fn call(
    rt: &impl Abort,
    alloc: Global,
    list: &[&[u8]],
    outside: &Outside,
    input: &[u8],
    text: &[u8],
) -> (Status, u64)
    requires { 1 ≤ outside.now.most }
{
    let mut sink = sink_of(rt, alloc, outside);
    let ended = call_over(rt, alloc, list, outside, input, &mut sink);
    assert!(rt; sink.bytes() == text);
    drop(sink);
    ended
}

// Runs a script that has to leave this journal.
fn run(
    rt: &impl Abort,
    alloc: Global,
    outside: &Outside,
    script: &[u8],
    journal: &[u8],
) -> (Status, u64)
    requires { 1 ≤ outside.now.most }
{
    call(rt, alloc, &[b"run".as_slice()], outside, script, journal)
}

#[test]
fn scripts_have_these_journals(rt: HostRuntime) {
    let alloc = rt.alloc();
    let table: [(&[u8], u64, &[u8]); 9] = [
        (FIRST, 2, b"2: issued DEDVBUND00001 240101\n"),
        (
            b"day 240101\nask DEDVBUND00001 0102\nday 240102\nask DEDVBUND00001 0102\n",
            4,
            b"2: issued DEDVBUND00001 240101\n4: kept DEDVBUND00001 240101\n",
        ),
        (
            b"day 240101\nask DEDVBUND00001 0102\nask DEDVBUND00001 0103\n",
            3,
            b"2: issued DEDVBUND00001 240101\n3: refused 2\n",
        ),
        (REPEATED, 5, REPEATED_JOURNAL),
        (b"", 0, b""),
        (
            b"# comments and empty lines are counted\r\n\nday 240229\r\nask FRDVXYZ99999 aBCd",
            2,
            b"4: issued FRDVXYZ99999 240229\n",
        ),
        (b"day 240101\nday 240101\n", 2, b""),
        // the register asks for no party
        (
            b"cvca DECVCA ec 03 1096\ndv DEDVBUND\nregister DECVCA DEDVBUND domestic 03 90 3 bare\n\
              day 240101\nask DEDVBUND00001 0102\n",
            2,
            b"5: issued DEDVBUND00001 240101\n",
        ),
        (b"dv DEDVBUND\n", 0, b""),
    ];
    for (script, done, journal) in table {
        let ended = run(&rt, alloc, &CALM, script, journal);
        assert!(rt; ended == (Status::Done, done));
    }
}

#[test]
fn the_first_fault_is_told_with_its_least_rule(rt: HostRuntime) {
    let alloc = rt.alloc();
    let table: [(&[u8], u64, u8); 14] = [
        (b"day 240101\nask DEDVBUND0000a 01\n", 2, 1),
        (b"day 230229\n", 1, 1),
        (b"day 24010\n", 1, 1),
        (b"day  240101\n", 1, 1),
        (b"day 240101 \n", 1, 1),
        (b"day 240101\nask DEDVBUND00001\n", 2, 1),
        (b"day 240101\nask DEDVBUND00001 012\n", 2, 1),
        (b"day 240101\nask DEDVBUND00001 0g\n", 2, 1),
        (b"day 240101\r\r\n", 1, 1),
        (b"day 240101\r", 1, 1),
        (b"# none\n\nfound DECVCA\n", 3, 4),
        (b"\nask DEDVBUND00001 01\nday 240101\n", 2, 4),
        (b"day 240102\nask DEDVBUND00001 01\nday 240101\n", 3, 5),
        (b"day 240102\nday 240101\nday 24010\n", 2, 5),
    ];
    for (script, line, rule) in table {
        let ended = run(&rt, alloc, &CALM, script, b"");
        assert!(rt; ended == (Status::ScriptFault { line, rule }, 0));
    }
}

// An authority, a verifier with a registration there, and an inspection system: five lines, with a comment.
const FIVE: &[u8] = b"cvca DECVCA ec 03 1096\n# parties\ndv DEDVBUND\nterminal DEIS00001\n\
      register DECVCA DEDVBUND domestic 03 90 3 bare\n";

// What stands behind those five lines, the first line that breaks a rule, and the least rule that it breaks.
const BEHIND_FIVE: [(&[u8], u64, u8); 46] = [
    // 1: no setup line in the grammar
    (b"DV FRDV1", 6, 1),
    (b"dv  FRDV1", 6, 1),
    (b"dv FRDV1 ", 6, 1),
    (b"dv", 6, 1),
    (b"dv FRDV1 FRDV2", 6, 1),
    (b"dv FR", 6, 1),
    (b"terminal frIS1", 6, 1),
    (b"cvca FRCVCA ec 03", 6, 1),
    (b"cvca FRCVCA dh 03 1096", 6, 1),
    (b"cvca FRCVCA ec 40 1096", 6, 1),
    (b"cvca FRCVCA ec 03 0366", 6, 1),
    // 1: a party that no earlier line names, or that can't have the part
    (
        b"register FRCVCA DEDVBUND foreign 03 90 3 bare\ncvca FRCVCA ec 03 1096",
        6,
        1,
    ),
    (b"register DECVCA FRDV1 foreign 03 90 3 bare", 6, 1),
    (b"register DEIS00001 DEDVBUND terminal 03 30 3 bare", 6, 1),
    (b"register DECVCA DEIS00001 domestic 03 90 3 bare", 6, 1),
    (b"register DEDVBUND DEIS00001 domestic 03 30 3 bare", 6, 1),
    (
        b"register DEDVBUND DEIS00001 terminal 03 30 3 home:DECVCA",
        6,
        1,
    ),
    (
        b"register DECVCA DEDVBUND foreign 03 90 3 home:DEDVBUND",
        6,
        1,
    ),
    (
        b"register DEDVBUND DEIS00001 terminal 03 30 3 bare barred",
        6,
        1,
    ),
    // 1: no event line in the grammar
    (b"found DE", 6, 1),
    (b"day 230229", 6, 1),
    (b"day 240101\nask DEDVBUND0000a 01", 7, 1),
    // 2: a setup line beyond a limit
    (b"cvca FRCVCA ec 03 182", 6, 2),
    (b"cvca FRCVCA rsa 3F 1097", 6, 2),
    (b"register DEDVBUND DEIS00001 terminal 03 0 3 bare", 6, 2),
    (b"register DEDVBUND DEIS00001 terminal 03 32 3 bare", 6, 2),
    (b"register DEDVBUND DEIS00001 terminal 03 30 0 bare", 6, 2),
    (b"register DEDVBUND DEIS00001 terminal 03 30 101 bare", 6, 2),
    // 3: said twice
    (b"dv DEDVBUND", 6, 3),
    (b"terminal DEDVBUND", 6, 3),
    (b"cvca DECVCA rsa 00 183", 6, 3),
    (
        b"register DECVCA DEDVBUND foreign 00 14 1 bare suspended",
        6,
        3,
    ),
    // 4: a setup line behind an event, an event before the first day
    (b"day 240101\ndv FRDV1", 7, 4),
    (b"day 240101\nterminal FRIS1", 7, 4),
    (b"day 240101\ncvca FRCVCA ec 03 1096", 7, 4),
    (
        b"day 240101\nask DEDVBUND00001 0102\nregister DEDVBUND DEIS00001 terminal 03 30 3 bare",
        8,
        4,
    ),
    (b"ask DEDVBUND00001 0102\nday 240101", 6, 4),
    // the least of two rules
    (b"cvca DECVCA ec 40 1097", 6, 1),
    (b"cvca DECVCA ec 03 1097", 6, 2),
    (b"day 240101\ndv FR", 7, 1),
    (b"day 240101\ncvca FRCVCA ec 03 1097", 7, 2),
    (b"day 240101\ndv DEDVBUND", 7, 3),
    // the first of two lines
    (b"day 240101\ndv FRDV1\ndv FR", 7, 4),
    (b"dv DEDVBUND\ndv FR", 6, 3),
    (b"dv FRDV1\n# again\n\ndv FRDV1\n", 9, 3),
    (b"day 240102\nday 240101\ndv FRDV1", 7, 5),
];

// A script of this head, so many times the piece, and this tail.
fn repeated(
    rt: &impl Abort,
    alloc: Global,
    head: &[u8],
    piece: &[u8],
    times: u64,
    tail: &[u8],
) -> Octets {
    let mut script = octets(rt, alloc, head);
    for _ in 0..times {
        script.push_all(piece).expect(rt, "memory is there");
    }
    script.push_all(tail).expect(rt, "memory is there");
    script
}

// Runs a made script, of which no call fails.
fn run_made(rt: &impl Abort, alloc: Global, script: Octets, journal: &[u8]) -> (Status, u64) {
    let ended = run(rt, alloc, &CALM, script.as_slice(), journal);
    drop(script);
    ended
}

#[test]
fn setup_lines_and_event_lines_are_told_by_their_rules(rt: HostRuntime) {
    let alloc = rt.alloc();
    for (behind, line, rule) in BEHIND_FIVE {
        let script = repeated(&rt, alloc, FIVE, behind, 1, b"");
        let ended = run_made(&rt, alloc, script, b"");
        assert!(rt; ended == (Status::ScriptFault { line, rule }, 0));
    }
}

#[test]
fn limits_are_told_past_them_alone(rt: HostRuntime) {
    let alloc = rt.alloc();
    let ask = b"day 240101\nask DEDVBUND00001 ";
    let longest = repeated(&rt, alloc, ask, b"01", 4096, b"\n");
    let ended = run_made(&rt, alloc, longest, b"2: issued DEDVBUND00001 240101\n");
    assert!(rt; ended == (Status::Done, 2));
    let longer = repeated(&rt, alloc, ask, b"01", 4097, b"\n");
    let ended = run_made(&rt, alloc, longer, b"");
    assert!(rt; ended == (Status::ScriptFault { line: 2, rule: 2 }, 0));
    let most = repeated(&rt, alloc, b"", b"day 240101\n", 20_000, b"");
    let ended = run_made(&rt, alloc, most, b"");
    assert!(rt; ended == (Status::Done, 20_000));
    let more = repeated(&rt, alloc, b"", b"day 240101\n", 20_001, b"");
    let ended = run_made(&rt, alloc, more, b"");
    let (line, rule) = (20_001, 7);
    assert!(rt; ended == (Status::ScriptFault { line, rule }, 0));
    let comments = repeated(&rt, alloc, b"", b"# 4,194,304\n", 349_525, b"#345");
    let ended = run_made(&rt, alloc, comments, b"");
    assert!(rt; ended == (Status::Done, 0));
    let long = repeated(&rt, alloc, b"", b"# 4,194,305\n", 349_525, b"#3456");
    let ended = run_made(&rt, alloc, long, b"");
    assert!(rt; ended == (Status::TooLong, 0));
}

// The founding certificate of an authority: 183 bytes, elliptic with its domain, rights 03, for three years.
const FOUNDING: &[u8] = &[
    0x7f, 0x21, 0x81, 0xb3, 0x7f, 0x4e, 0x6d, 0x5f, 0x29, 0x01, 0x00, 0x42, 0x0b, 0x44, 0x45, 0x43,
    0x56, 0x43, 0x41, 0x30, 0x30, 0x30, 0x30, 0x31, 0x7f, 0x49, 0x28, 0x06, 0x0a, 0x04, 0x00, 0x7f,
    0x00, 0x07, 0x02, 0x02, 0x02, 0x02, 0x03, 0x81, 0x01, 0x01, 0x82, 0x01, 0x02, 0x83, 0x01, 0x03,
    0x84, 0x01, 0x04, 0x85, 0x01, 0x05, 0x86, 0x08, 0x00, 0x00, 0x00, 0x00, 0x00, 0x00, 0x00, 0x01,
    0x87, 0x01, 0x01, 0x5f, 0x20, 0x0b, 0x44, 0x45, 0x43, 0x56, 0x43, 0x41, 0x30, 0x30, 0x30, 0x30,
    0x31, 0x7f, 0x4c, 0x0e, 0x06, 0x09, 0x04, 0x00, 0x7f, 0x00, 0x07, 0x03, 0x01, 0x02, 0x01, 0x53,
    0x01, 0xc3, 0x5f, 0x25, 0x06, 0x02, 0x04, 0x00, 0x01, 0x00, 0x01, 0x5f, 0x24, 0x06, 0x02, 0x07,
    0x00, 0x01, 0x00, 0x01, 0x5f, 0x37, 0x40, 0x00, 0x00, 0x00, 0x00, 0x00, 0x00, 0x00, 0x00, 0x00,
    0x00, 0x00, 0x00, 0x00, 0x00, 0x00, 0x00, 0x00, 0x00, 0x00, 0x00, 0x00, 0x00, 0x00, 0x00, 0x00,
    0x00, 0x00, 0x00, 0x00, 0x00, 0x00, 0x00, 0x00, 0x00, 0x00, 0x00, 0x00, 0x00, 0x00, 0x00, 0x00,
    0x00, 0x00, 0x00, 0x00, 0x00, 0x00, 0x00, 0x00, 0x00, 0x00, 0x00, 0x00, 0x00, 0x00, 0x00, 0x00,
    0x00, 0x00, 0x00, 0x00, 0x00, 0x00, 0x01,
];

const FOUNDING_SHOWN: &[u8] =
    b"authority DECVCA00001\nholder DECVCA00001\nrole cvca\nrights 03\nfrom 240101\nuntil 270101\n\
      algorithm 2.3\ndomain 15\npoint 8\nextensions none\nsignature 64\n";

// Shows an input, of which this text has to be printed.
fn show(rt: &impl Abort, alloc: Global, input: &[u8], text: &[u8]) -> (Status, u64) {
    let outside = Outside { most: 100, ..CALM };
    call(rt, alloc, &[b"show".as_slice()], &outside, input, text)
}

#[test]
fn certificates_are_shown_and_others_refused(rt: HostRuntime) {
    let alloc = rt.alloc();
    let mut longer = octets(&rt, alloc, FOUNDING);
    longer.push_all(b"\0").expect(&rt, "memory is there");
    let table: [(&[u8], &[u8]); 5] = [
        (FOUNDING, FOUNDING_SHOWN),
        (&FOUNDING[..182], b"refused 2 at 0\n"),
        (&FOUNDING[..3], b"refused 2 at 0\n"),
        (b"", b"refused 2 at 0\n"),
        (longer.as_slice(), b"refused 8\n"),
    ];
    for (input, text) in table {
        let ended = show(&rt, alloc, input, text);
        assert!(rt; ended == (Status::Done, 0));
    }
    drop(longer);
}

#[test]
fn other_words_are_usage(rt: HostRuntime) {
    let alloc = rt.alloc();
    let table: [&[&[u8]]; 4] = [
        &[],
        &[b"ran".as_slice()],
        &[b"run".as_slice(), b"".as_slice()],
        &[b"run".as_slice(), b"a".as_slice(), b"b".as_slice()],
    ];
    for list in table {
        let ended = call(&rt, alloc, list, &CALM, FIRST, b"");
        assert!(rt; ended == (Status::Usage, 0));
    }
}

fn run_dripping(rt: &impl Abort, alloc: Global, script: &[u8], journal: &[u8]) -> (Status, u64) {
    let sink = sink_of(rt, alloc, &CALM);
    let mut dripping = Dripping { sink };
    let list = [b"run".as_slice()];
    let ended = call_over(rt, alloc, &list, &CALM, script, &mut dripping);
    assert!(rt; dripping.sink.bytes() == journal);
    drop(dripping);
    ended
}

#[test]
fn pieces_of_any_size_give_the_same_journal(rt: HostRuntime) {
    let alloc = rt.alloc();
    for cut in 0..=REPEATED.len() as u64 {
        let most = if cut == 0 { 1 } else { 4096 };
        let outside = Outside { most, cut, ..CALM };
        let ended = run(&rt, alloc, &outside, REPEATED, REPEATED_JOURNAL);
        assert!(rt; ended == (Status::Done, 5));
    }
    let ended = run_dripping(&rt, alloc, REPEATED, REPEATED_JOURNAL);
    assert!(rt; ended == (Status::Done, 5));
}

// The repeated script takes two reads, five keeper calls (a look, a count and an adding, then two looks) and six
// writes, two for each line: its text and its line feed.
#[test]
fn each_outside_call_fails_in_turn(rt: HostRuntime) {
    let alloc = rt.alloc();
    for n in 1..=2 {
        let outside = Outside {
            read: Some(n),
            ..CALM
        };
        let ended = run(&rt, alloc, &outside, REPEATED, b"");
        assert!(rt; ended == (Status::ReadFault, 0));
    }
    let write_table: [(u64, u64, &[u8]); 6] = [
        (1, 1, b""),
        (2, 1, b"2: issued DEDVBUND00001 240101"),
        (3, 3, b"2: issued DEDVBUND00001 240101\n"),
        (
            4,
            3,
            b"2: issued DEDVBUND00001 240101\n4: kept DEDVBUND00001 240101",
        ),
        (
            5,
            4,
            b"2: issued DEDVBUND00001 240101\n4: kept DEDVBUND00001 240101\n",
        ),
        (
            6,
            4,
            b"2: issued DEDVBUND00001 240101\n4: kept DEDVBUND00001 240101\n5: refused 2",
        ),
    ];
    for (n, done, journal) in write_table {
        let outside = Outside {
            write: Some(n),
            ..CALM
        };
        let ended = run(&rt, alloc, &outside, REPEATED, journal);
        assert!(rt; ended == (Status::WriteFault, done));
    }
    let keeper_table: [(u64, Moment, &[u8]); 6] = [
        (
            1,
            Moment::Before,
            b"2: fault keeper\n4: issued DEDVBUND00001 240102\n5: refused 2\n",
        ),
        (
            2,
            Moment::Before,
            b"2: fault keeper\n4: issued DEDVBUND00001 240102\n5: refused 2\n",
        ),
        (
            3,
            Moment::Before,
            b"2: fault keeper\n4: issued DEDVBUND00001 240102\n5: refused 2\n",
        ),
        (
            3,
            Moment::After,
            b"2: fault keeper\n4: kept DEDVBUND00001 240101\n5: refused 2\n",
        ),
        (
            4,
            Moment::After,
            b"2: issued DEDVBUND00001 240101\n4: fault keeper\n5: refused 2\n",
        ),
        (
            5,
            Moment::Before,
            b"2: issued DEDVBUND00001 240101\n4: kept DEDVBUND00001 240101\n5: fault keeper\n",
        ),
    ];
    for (n, moment, journal) in keeper_table {
        let outside = Outside {
            keep: Some((n, moment)),
            ..CALM
        };
        let ended = run(&rt, alloc, &outside, REPEATED, journal);
        assert!(rt; ended == (Status::Done, 5));
    }
}
