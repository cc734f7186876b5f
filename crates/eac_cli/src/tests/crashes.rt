// Chips of scripts under crashes and failing device calls: what was acknowledged stands.
use super::chips::{disk_of, run_into, run_on};
use super::events::{WORKED, WORKED_JOURNAL, has};
use super::grants::{FIRST_TO_SECOND, TWO_LINKS, TWO_LINKS_JOURNAL};
use super::{CALM, ended, octets, repeated, sink_of};
use crate::tool::Status;
use chip_slots::{ChipDisk, MemoryDisk};
use eac_base::{Acks, FailPlan, Octets, is_same};
use std::alloc::Global;
use std::process::Abort;

const TWO_SLOTS: [u8; 16_384] = [0; 16_384];

const THREE_SLOTS: [u8; 24_576] = [0; 24_576];

// What a crash may leave in a byte that was written and not yet made stable.
const TORN: [u8; 3] = [0x00, 0xa5, 0xff];

// ---- slots

// The last state of the first chip of the worked script: its gate, form and generation, the day 2024-01-08, and two
// trust points. The link's key is the seventh one.
const LAST_STATE: &[u8] = &[
    0xa5, 0x01, 0x00, 0x00, 0x00, 0x00, 0x00, 0x00, 0x00, 0x02, 0x22, 0x45, 0x02, 0x0b, 0x44, 0x45,
    0x43, 0x56, 0x43, 0x41, 0x30, 0x30, 0x30, 0x30, 0x31, 0xc3, 0x22, 0x3e, 0x26, 0x86, 0x02, 0x03,
    0x00, 0x0f, 0x81, 0x01, 0x01, 0x82, 0x01, 0x02, 0x83, 0x01, 0x03, 0x84, 0x01, 0x04, 0x85, 0x01,
    0x05, 0x00, 0x08, 0x00, 0x00, 0x00, 0x00, 0x00, 0x00, 0x00, 0x01, 0x0b, 0x44, 0x45, 0x43, 0x56,
    0x43, 0x41, 0x30, 0x30, 0x30, 0x30, 0x32, 0xc3, 0x22, 0x45, 0x26, 0x8d, 0x02, 0x03, 0x00, 0x0f,
    0x81, 0x01, 0x01, 0x82, 0x01, 0x02, 0x83, 0x01, 0x03, 0x84, 0x01, 0x04, 0x85, 0x01, 0x05, 0x00,
    0x08, 0x00, 0x00, 0x00, 0x00, 0x00, 0x00, 0x00, 0x07,
];

// What slots begin with: an open gate, the form and the generation.
const GENERATION_0: &[u8] = &[0xa5, 1, 0, 0, 0, 0, 0, 0, 0, 0];

const GENERATION_1: &[u8] = &[0xa5, 1, 0, 0, 0, 0, 0, 0, 0, 1];

// Whether these bytes stand at this place.
fn stands_at(image: &[u8], at: usize, bytes: &[u8]) -> bool {
    if image.len() < at {
        return false;
    }
    let (_, behind) = image.split_at(at);
    bytes.len() <= behind.len() && is_same(&behind[..bytes.len()], bytes)
}

fn image_of(rt: &impl Abort, alloc: Global, disk: &MemoryDisk, moment: u64, torn: u8) -> Octets {
    if disk.calls() < moment {
        panic!(rt; "a moment that was");
    }
    match disk.crashed(alloc, moment, torn) {
        Ok(image) => image,
        Err(_) => panic!(rt; "memory is there"),
    }
}

#[test]
fn states_go_round_three_slots(rt: HostRuntime) {
    let alloc = rt.alloc();
    let mut chips = [
        disk_of(&rt, alloc, &THREE_SLOTS, None),
        disk_of(&rt, alloc, &THREE_SLOTS, None),
    ];
    let report = run_on(&rt, alloc, &CALM, WORKED, WORKED_JOURNAL, &mut chips);
    assert!(rt; ended(report) == (Status::Done, 52));
    let image = image_of(&rt, alloc, &chips[0], chips[0].calls(), 0);
    drop(chips);
    assert!(rt; image.len() == 24_576);
    assert!(rt; stands_at(image.as_slice(), 0, GENERATION_0));
    assert!(rt; stands_at(image.as_slice(), 8_192, GENERATION_1));
    assert!(rt; stands_at(image.as_slice(), 16_384, LAST_STATE));
    drop(image);
}

// ---- what a crash leaves

// What the chip of this image tells, as a journal's line 2.
fn told(rt: &impl Abort, alloc: Global, image: Octets) -> Octets {
    let mut chips = [MemoryDisk::new(alloc, image, FailPlan::new(alloc), None)];
    let mut sink = sink_of(rt, alloc, &CALM);
    let script = b"day 240101\nlook 0\n";
    let report = run_into(rt, alloc, &CALM, script, &mut sink, &mut chips);
    assert!(rt; ended(report) == (Status::Done, 2));
    let text = octets(rt, alloc, sink.bytes());
    drop(sink);
    drop(chips);
    text
}

// What a crash at this moment leaves, as the chip tells it.
fn left(rt: &impl Abort, alloc: Global, disk: &MemoryDisk, moment: u64, torn: u8) -> Octets {
    let image = image_of(rt, alloc, disk, moment, torn);
    told(rt, alloc, image)
}

// What chip 0 tells before and after it takes the first link.
const BEFORE: &[u8] = b"2: day 240101 points DECVCA00001 generation 0\n";

const AFTER: &[u8] = b"2: day 240102 points DECVCA00001 DECVCA00002 generation 1\n";

// Whether a crash at this moment leaves the state after, or where that isn't acknowledged yet the one before.
fn fits(rt: &impl Abort, alloc: Global, disk: &MemoryDisk, moment: u64, acknowledged: u64) -> bool {
    for torn in TORN {
        let text = left(rt, alloc, disk, moment, torn);
        let is_before = is_same(text.as_slice(), BEFORE);
        let is_after = is_same(text.as_slice(), AFTER);
        drop(text);
        if !is_after && (acknowledged <= moment || !is_before) {
            return false;
        }
    }
    true
}

// Whether each crash from this moment on leaves the state before or after.
fn always_fits(
    rt: &impl Abort,
    alloc: Global,
    disk: &MemoryDisk,
    begun: u64,
    acknowledged: u64,
) -> bool {
    for moment in begun..disk.calls().saturating_add(1) {
        if !fits(rt, alloc, disk, moment, acknowledged) {
            return false;
        }
    }
    true
}

// How many device calls chip 0 has after this script, before whose end nothing is torn.
fn calls_after(rt: &impl Abort, alloc: Global, script: &[u8], journal: &[u8]) -> u64 {
    let mut chips = [disk_of(rt, alloc, &TWO_SLOTS, None)];
    drop(run_on(rt, alloc, &CALM, script, journal, &mut chips));
    let calls = chips[0].calls();
    for torn in TORN {
        let text = left(rt, alloc, &chips[0], calls, torn);
        assert!(rt; text.as_slice() == BEFORE);
        drop(text);
    }
    drop(chips);
    calls
}

// The device calls of the first acknowledgement, which is that of the first import.
fn acknowledged_at(rt: &impl Abort, acks: &Acks) -> u64 {
    match acks.get(0) {
        Some(ack) => {
            assert!(rt; ack.chip == 0 && ack.import == 1);
            ack.calls
        }
        None => panic!(rt; "an acknowledgement"),
    }
}

// An event by which chip 0 takes the first link: the script before its line and the answers to that, then the line and
// its answer.
#[derive(Clone, Copy)]
struct Linking {
    script: &'static [u8],
    journal: &'static [u8],
    line: &'static [u8],
    answer: &'static [u8],
}

fn linking_fits(rt: &impl Abort, alloc: Global, linking: &Linking) -> bool {
    let begun = calls_after(rt, alloc, linking.script, linking.journal);
    let script = repeated(rt, alloc, linking.script, linking.line, 1, b"");
    let journal = repeated(rt, alloc, linking.journal, linking.answer, 1, b"");
    let mut chips = [disk_of(rt, alloc, &TWO_SLOTS, None)];
    let report = run_on(
        rt,
        alloc,
        &CALM,
        script.as_slice(),
        journal.as_slice(),
        &mut chips,
    );
    drop(script);
    drop(journal);
    let acknowledged = acknowledged_at(rt, &report.acks);
    drop(report);
    assert!(rt; begun < acknowledged && acknowledged <= chips[0].calls());
    let fits = always_fits(rt, alloc, &chips[0], begun, acknowledged);
    drop(chips);
    fits
}

// A terminal has a chain that begins with the first link.
const CHAINED: &[u8] = b"cvca DECVCA ec 03 1096\n\
      dv DEDVBUND\n\
      terminal DETERM1\n\
      register DECVCA DEDVBUND domestic 03 90 3 bare\n\
      register DEDVBUND DETERM1 terminal 03 7 4 bare\n\
      day 240101\n\
      found DECVCA\n\
      make 0 DECVCA\n\
      trust DEDVBUND DECVCA\n\
      trust DETERM1 DECVCA\n\
      day 240102\n\
      link DECVCA\n\
      push DECVCA DEDVBUND\n\
      deliver 1\n\
      apply DEDVBUND DECVCA DECVCA\n\
      deliver 3\n\
      deliver 4\n\
      push DEDVBUND DETERM1\n\
      deliver 5\n\
      apply DETERM1 DEDVBUND DECVCA\n\
      deliver 7\n\
      deliver 8\n";

const CHAINED_JOURNAL: &[u8] = b"7: founded DECVCA00001\n\
      8: made DECVCA00001\n\
      9: trusted DECVCA00001\n\
      10: trusted DECVCA00001\n\
      12: linked DECVCA00002\n\
      13: packet 1\n\
      14: ca held DECVCA00001, ca DECVCA00002 reply 2\n\
      15: packet 3 DEDVBUND00001\n\
      16: issued DEDVBUND00001 reply 4\n\
      17: stored DEDVBUND00001\n\
      18: packet 5\n\
      19: ca held DECVCA00001, ca DECVCA00002, ca DEDVBUND00001 reply 6\n\
      20: packet 7 DETERM100001\n\
      21: issued DETERM100001 reply 8\n\
      22: stored DETERM100001\n";

const BY_IMPORT: Linking = Linking {
    script: TWO_LINKS,
    journal: TWO_LINKS_JOURNAL,
    line: FIRST_TO_SECOND,
    answer: b"9: link DECVCA00002 day 240102\n",
};

const BY_PRESENT: Linking = Linking {
    script: CHAINED,
    journal: CHAINED_JOURNAL,
    line: b"present 0 DETERM1\n",
    answer: b"23: link DECVCA00002, verifier DEDVBUND00001, terminal DETERM100001, grant 03 day 240102\n",
};

#[test]
fn a_crash_leaves_the_state_before_or_after_a_link(rt: HostRuntime) {
    let alloc = rt.alloc();
    for linking in [BY_IMPORT, BY_PRESENT] {
        assert!(rt; linking_fits(&rt, alloc, &linking));
    }
}

// ---- a run of events

const NO_CHIP: &[u8] = b"2: nochip\n";

// What chip 0 tells in the course of the worked script.
const TOLD: [&[u8]; 4] = [
    NO_CHIP,
    b"2: day 240101 points DECVCA00001 generation 0\n",
    b"2: day 240108 points DECVCA00001 generation 1\n",
    b"2: day 240108 points DECVCA00001 DECVCA00002 generation 2\n",
];

// The place among them of what each acknowledged import of chip 0 leaves.
const STATES: [u64; 9] = [1, 1, 1, 2, 3, 3, 3, 3, 3];

// The place of a text among them.
fn place_of(rt: &impl Abort, text: &[u8]) -> u64 {
    let mut place = 0u64;
    for told in TOLD {
        if is_same(text, told) {
            return place;
        }
        place = place.saturating_add(1);
    }
    panic!(rt; "a state of the worked script")
}

fn state_after(rt: &impl Abort, import: u64) -> u64 {
    let mut n = 0u64;
    for state in STATES {
        n = n.saturating_add(1);
        if n == import {
            return state;
        }
    }
    panic!(rt; "an import of the worked script")
}

// The place of the state that was acknowledged by this moment.
fn acknowledged_by(rt: &impl Abort, acks: &Acks, moment: u64) -> u64 {
    let mut state = 0u64;
    for n in 0..acks.len() {
        let Some(ack) = acks.get(n) else {
            panic!(rt; "an acknowledgement");
        };
        if ack.chip == 0 && ack.calls <= moment {
            state = state_after(rt, ack.import);
        }
    }
    state
}

// Whether a crash at this moment leaves the state that was acknowledged, or the next one.
fn is_kept(rt: &impl Abort, alloc: Global, disk: &MemoryDisk, acks: &Acks, moment: u64) -> bool {
    let least = acknowledged_by(rt, acks, moment);
    for torn in TORN {
        let text = left(rt, alloc, disk, moment, torn);
        let place = place_of(rt, text.as_slice());
        drop(text);
        if place < least || least.saturating_add(1) < place {
            return false;
        }
    }
    true
}

#[test]
fn no_crash_of_the_worked_script_loses_what_was_acknowledged(rt: HostRuntime) {
    let alloc = rt.alloc();
    let mut chips = [
        disk_of(&rt, alloc, &TWO_SLOTS, None),
        disk_of(&rt, alloc, &TWO_SLOTS, None),
    ];
    let report = run_on(&rt, alloc, &CALM, WORKED, WORKED_JOURNAL, &mut chips);
    for moment in 0..chips[0].calls().saturating_add(1) {
        assert!(rt; is_kept(&rt, alloc, &chips[0], &report.acks, moment));
    }
    drop(report);
    drop(chips);
}

// ---- failing device calls

// What the worked script answers, and what chip 0 tells in the end where it was answered.
const LASTING: [(&[u8], &[u8]); 4] = [
    (b": made DECVCA00001\n", b" points DECVCA00001 "),
    (b", grant 03 day 240101\n", b" points DECVCA00001 "),
    (b", grant 03 day 240108\n", b": day 240108 "),
    (b": link DECVCA00002, ", b" points DECVCA00001 DECVCA00002 "),
];

// Whether a crash at the end leaves this text in what the chip tells.
fn lasts(rt: &impl Abort, alloc: Global, disk: &MemoryDisk, part: &[u8]) -> bool {
    for torn in TORN {
        let text = left(rt, alloc, disk, disk.calls(), torn);
        let has_part = has(text.as_slice(), part);
        drop(text);
        if !has_part {
            return false;
        }
    }
    true
}

// Whether nothing that this journal answers is lost.
fn all_lasts(rt: &impl Abort, alloc: Global, disk: &MemoryDisk, journal: &[u8]) -> bool {
    for (answer, part) in LASTING {
        if has(journal, answer) && !lasts(rt, alloc, disk, part) {
            return false;
        }
    }
    true
}

// Whether each crash at this moment leaves the same chip.
fn is_certain(rt: &impl Abort, alloc: Global, disk: &MemoryDisk, moment: u64) -> bool {
    let first = left(rt, alloc, disk, moment, 0x00);
    let mut certain = !is_same(first.as_slice(), NO_CHIP);
    for torn in TORN {
        let text = left(rt, alloc, disk, moment, torn);
        certain = certain && is_same(first.as_slice(), text.as_slice());
        drop(text);
    }
    drop(first);
    certain
}

// Whether what each import of chip 0 left was certain when it was acknowledged.
fn all_certain(rt: &impl Abort, alloc: Global, disk: &MemoryDisk, acks: &Acks) -> bool {
    for n in 0..acks.len() {
        let Some(ack) = acks.get(n) else {
            return false;
        };
        if ack.chip == 0 && !is_certain(rt, alloc, disk, ack.calls) {
            return false;
        }
    }
    true
}

// Runs the worked script, where this device call of chip 0 fails.
fn is_told_and_nothing_lost(rt: &impl Abort, alloc: Global, call: u64) -> bool {
    let mut chips = [
        disk_of(rt, alloc, &TWO_SLOTS, Some(call)),
        disk_of(rt, alloc, &TWO_SLOTS, None),
    ];
    let mut sink = sink_of(rt, alloc, &CALM);
    let report = run_into(rt, alloc, &CALM, WORKED, &mut sink, &mut chips);
    assert!(rt; report.status == Status::Done && report.done == 52);
    assert!(rt; all_certain(rt, alloc, &chips[0], &report.acks));
    drop(report);
    let told = has(sink.bytes(), b"fault disk\n");
    let lasts = all_lasts(rt, alloc, &chips[0], sink.bytes());
    drop(sink);
    drop(chips);
    told && lasts
}

// How many device calls of chip 0 the worked script makes where none fails.
fn worked_calls(rt: &impl Abort, alloc: Global) -> u64 {
    let mut chips = [
        disk_of(rt, alloc, &TWO_SLOTS, None),
        disk_of(rt, alloc, &TWO_SLOTS, None),
    ];
    drop(run_on(rt, alloc, &CALM, WORKED, WORKED_JOURNAL, &mut chips));
    let calls = chips[0].calls();
    assert!(rt; all_lasts(rt, alloc, &chips[0], WORKED_JOURNAL));
    drop(chips);
    calls
}

#[test]
fn each_device_call_of_a_chip_fails_in_turn(rt: HostRuntime) {
    let alloc = rt.alloc();
    let calls = worked_calls(&rt, alloc);
    for call in 1..calls.saturating_add(1) {
        assert!(rt; is_told_and_nothing_lost(&rt, alloc, call));
    }
}
