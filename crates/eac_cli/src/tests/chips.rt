// Scripts over chips: what is acknowledged, and what blank, wrong and failing disks answer.
ghost use Rattle.std.specs.Prelude.{◌≤◌, ◌<◌, length};

use super::events::{WORKED, WORKED_JOURNAL};
use super::{
    CALM, Outside, chips_of, keeper_of, octets, plan_of, provider_of, repeated, report_of, sink_of,
    source_of,
};
use crate::tool::{Report, Status};
use chip_slots::{ChipDisk, MemoryDisk};
use eac_base::{Acks, Sink};
use std::alloc::Global;
use std::process::Abort;

// Runs a script over this sink and these chips.
pub fn run_into<K: Sink, D: ChipDisk>(
    rt: &impl Abort,
    alloc: Global,
    outside: &Outside,
    script: &[u8],
    sink: &mut K,
    chips: &mut [D],
) -> Report
    requires most { 1 ≤ outside.now.most }
    requires chips { length chips.old < 4294967296 }
{
    let source = source_of(rt, alloc, outside, script);
    let mut keeper = keeper_of(rt, alloc, outside);
    let mut provider = provider_of(rt, alloc, outside);
    let list = [b"run".as_slice()];
    let report = report_of(
        rt,
        alloc,
        &list,
        source,
        sink,
        chips,
        &mut keeper,
        &mut provider,
    );
    drop(keeper);
    drop(provider);
    report
}

// Runs a script over these chips, and it has to leave this journal.
pub fn run_on<D: ChipDisk>(
    rt: &impl Abort,
    alloc: Global,
    outside: &Outside,
    script: &[u8],
    journal: &[u8],
    chips: &mut [D],
) -> Report
    requires most { 1 ≤ outside.now.most }
    requires chips { length chips.old < 4294967296 }
{
    let mut sink = sink_of(rt, alloc, outside);
    let report = run_into(rt, alloc, outside, script, &mut sink, chips);
    assert!(rt; sink.bytes() == journal);
    drop(sink);
    report
}

// ---- acknowledgements

// Whether these are the imports with these numbers on these chips, each at a later call of its disk than the one before.
pub fn are(acks: &Acks, wanted: &[(u32, u64)]) -> bool {
    let mut calls = [0u64; 2];
    for at in 0..wanted.len() {
        let (chip, import) = wanted[at];
        let Some(ack) = acks.get(at) else {
            return false;
        };
        if ack.chip != chip || ack.import != import || 2 <= chip {
            return false;
        }
        if ack.calls < calls[chip as usize] {
            return false;
        }
        calls[chip as usize] = ack.calls;
    }
    acks.len() == wanted.len()
}

#[test]
fn each_certificate_that_is_taken_is_acknowledged(rt: HostRuntime) {
    let alloc = rt.alloc();
    let mut chips = chips_of(&rt, alloc);
    let report = run_on(
        &rt,
        alloc,
        &CALM,
        WORKED,
        WORKED_JOURNAL,
        chips.as_mut_slice(),
    );
    assert!(rt; report.status == Status::Done);
    let wanted = [
        (0, 1),
        (0, 2),
        (1, 1),
        (1, 2),
        (0, 3),
        (0, 4),
        (0, 5),
        (0, 6),
        (0, 7),
        (0, 8),
        (0, 9),
    ];
    assert!(rt; are(&report.acks, &wanted));
    drop(report);
    drop(chips);
}

// How many bytes the worked journal has behind its line of the number 34.
const BEHIND_34: usize = 972;

// The worked journal has two writes for each line. The one with the number 53 is the text of the script's line 35.
#[test]
fn a_stopped_run_keeps_the_acknowledgements_of_its_last_event(rt: HostRuntime) {
    let alloc = rt.alloc();
    let mut chips = chips_of(&rt, alloc);
    let outside = Outside {
        write: Some(53),
        ..CALM
    };
    let front = WORKED_JOURNAL.len() - BEHIND_34;
    let report = run_on(
        &rt,
        alloc,
        &outside,
        WORKED,
        &WORKED_JOURNAL[..front],
        chips.as_mut_slice(),
    );
    assert!(rt; report.status == Status::WriteFault && report.done == 27);
    assert!(rt; are(&report.acks, &[(0, 1), (0, 2), (1, 1), (1, 2)]));
    drop(report);
    drop(chips);
}

// ---- disks

const TWO: &[u8] = b"cvca DECVCA ec 03 1096\nterminal DETERM1\nday 240101\n";

// Runs these lines behind an authority, a terminal and a day, over these chips.
fn run_behind(
    rt: &impl Abort,
    alloc: Global,
    lines: &[u8],
    journal: &[u8],
    chips: &mut [MemoryDisk],
) -> (Status, u64)
    requires { length chips.old < 4294967296 }
{
    let mut script = octets(rt, alloc, TWO);
    script.push_all(lines).expect(rt, "memory is there");
    let report = run_on(rt, alloc, &CALM, script.as_slice(), journal, chips);
    assert!(rt; report.acks.len() == 0);
    let ended = (report.status, report.done);
    drop(script);
    drop(report);
    ended
}

#[test]
fn chips_that_are_not_made_are_none(rt: HostRuntime) {
    let alloc = rt.alloc();
    let mut chips = chips_of(&rt, alloc);
    let ended = run_behind(
        &rt,
        alloc,
        b"look 1\nimport 1 7F21\npresent 1 DETERM1\nmake 0 DECVCA\nfound DECVCA\nmake 0 DECVCA\n\
          make 0 DECVCA\nlook 0\npresent 0 DETERM1\nlook 1\n",
        b"4: nochip\n5: nochip\n6: nochip\n7: refused unfounded\n8: founded DECVCA00001\n\
          9: made DECVCA00001\n10: refused made\n11: day 240101 points DECVCA00001 generation 0\n\
          12: nochain\n13: nochip\n",
        chips.as_mut_slice(),
    );
    assert!(rt; ended == (Status::Done, 11));
    drop(chips);
}

pub fn disk_of(rt: &impl Abort, alloc: Global, bytes: &[u8], call: Option<u64>) -> MemoryDisk {
    let bytes = octets(rt, alloc, bytes);
    MemoryDisk::new(alloc, bytes, plan_of(rt, alloc, call), None)
}

#[test]
fn disks_of_another_size_hold_no_chip(rt: HostRuntime) {
    let alloc = rt.alloc();
    let mut chips = [disk_of(&rt, alloc, b"", None)];
    let ended = run_behind(
        &rt,
        alloc,
        b"found DECVCA\nmake 0 DECVCA\nlook 0\n",
        b"4: founded DECVCA00001\n5: refused size\n6: nochip\n",
        &mut chips,
    );
    assert!(rt; ended == (Status::Done, 4));
    drop(chips);
}

// How a making is answered by a disk of so many times 32 bytes.
const SIZES: [(u64, &[u8]); 3] = [
    (625, b"4: founded DECVCA00001\n5: refused size\n"),
    (4352, b"4: founded DECVCA00001\n5: refused size\n"),
    (4096, b"4: founded DECVCA00001\n5: made DECVCA00001\n"),
];

#[test]
fn a_chip_is_made_on_two_to_sixteen_slots(rt: HostRuntime) {
    let alloc = rt.alloc();
    for (times, journal) in SIZES {
        let bytes = repeated(&rt, alloc, b"", &[0; 32], times, b"");
        let mut chips = [disk_of(&rt, alloc, bytes.as_slice(), None)];
        drop(bytes);
        let lines = b"found DECVCA\nmake 0 DECVCA\n";
        let ended = run_behind(&rt, alloc, lines, journal, &mut chips);
        assert!(rt; ended == (Status::Done, 3));
        drop(chips);
    }
}

#[test]
fn a_disk_that_fails_is_a_fault_of_its_lines(rt: HostRuntime) {
    let alloc = rt.alloc();
    let mut chips = [disk_of(&rt, alloc, &[0; 16_384], Some(1))];
    let ended = run_behind(
        &rt,
        alloc,
        b"found DECVCA\nmake 0 DECVCA\nmake 0 DECVCA\n",
        b"4: founded DECVCA00001\n5: fault disk\n6: made DECVCA00001\n",
        &mut chips,
    );
    assert!(rt; ended == (Status::Done, 4));
    drop(chips);
}
