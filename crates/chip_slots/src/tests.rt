// A chip's memory under every crash, with certificates of another program.
//
// Owned values are let go by a call of `drop`: at the end of a scope each part of them would be proved apart.
mod certs;

use self::certs::{DOMESTIC, FIRST_TO_SECOND, ROOT, SECOND_TO_THIRD};
use crate::{Chip, ChipDisk, ChipRefusal, FileDisk, MakeRefusal, MemoryDisk, make_chip, open_chip};
use chip_verify::Imported;
use cv_dates::day_from_text;
use cvc_grammar::view_cert;
use eac_base::{FailPlan, Octets};
use signature_provider::DigestProvider;
use std::alloc::Global;
use std::fs;
use std::process::Abort;

const TORN: [u8; 3] = [0x00, 0xa5, 0xff];

const RINGS: [u64; 3] = [2, 3, 16];

fn zeros(rt: &impl Abort, alloc: Global, bytes: u64) -> Octets {
    let mut zeros = Octets::new(alloc);
    for _ in 0..bytes / 8 {
        zeros.push_all(&[0; 8]).expect(rt, "memory");
    }
    zeros
}

fn failing(rt: &impl Abort, alloc: Global, calls: &[u64]) -> FailPlan {
    let mut plan = FailPlan::new(alloc);
    for call in calls {
        plan.push(*call).expect(rt, "memory");
    }
    plan
}

fn made(rt: &impl Abort, disk: &mut MemoryDisk) -> Result<(), MakeRefusal> {
    let Ok(root) = view_cert(ROOT) else {
        panic!(rt; "a certificate");
    };
    let day = day_from_text(b"240101").expect(rt, "a day");
    if disk.reserve().is_err() {
        panic!(rt; "memory");
    }
    make_chip(disk, &root, day)
}

fn opened(rt: &impl Abort, disk: &mut MemoryDisk) -> Result<Chip, ChipRefusal> {
    if disk.reserve().is_err() {
        panic!(rt; "memory");
    }
    open_chip(disk)
}

fn generation_of(chip: Result<Chip, ChipRefusal>) -> Result<u64, ChipRefusal> {
    match chip {
        Ok(chip) => {
            let generation = chip.generation();
            drop(chip);
            Ok(generation)
        }
        Err(refusal) => Err(refusal),
    }
}

fn given(
    rt: &impl Abort,
    alloc: Global,
    chip: &mut Chip,
    disk: &mut MemoryDisk,
    bytes: &[u8],
) -> Result<Imported, ChipRefusal> {
    let mut provider = DigestProvider::new(alloc, [0; 32]);
    if disk.reserve().is_err() {
        panic!(rt; "memory");
    }
    let imported = chip.import(disk, &mut provider, bytes);
    drop(provider);
    imported
}

/// The generation that an image reads as, and one more; 0 for none.
fn read_of(rt: &impl Abort, alloc: Global, image: Octets) -> u64 {
    let mut disk = MemoryDisk::new(alloc, image, FailPlan::new(alloc), None);
    let generation = generation_of(opened(rt, &mut disk));
    drop(disk);
    match generation {
        Ok(generation) => generation.saturating_add(1),
        Err(ChipRefusal::NoChip) => 0,
        Err(_) => panic!(rt; "no call fails here"),
    }
}

fn crashed(rt: &impl Abort, alloc: Global, disk: &MemoryDisk, moment: u64, torn: u8) -> u64 {
    if disk.calls() < moment {
        panic!(rt; "a moment that was");
    }
    match disk.crashed(alloc, moment, torn) {
        Ok(image) => read_of(rt, alloc, image),
        Err(_) => panic!(rt; "memory"),
    }
}

/// A made and opened chip on a memory of so many slots.
fn chip_on(
    rt: &impl Abort,
    alloc: Global,
    slots: u64,
    plan: FailPlan,
    stop: Option<u64>,
) -> (Chip, MemoryDisk) {
    let bytes = zeros(rt, alloc, slots.saturating_mul(8192));
    let mut disk = MemoryDisk::new(alloc, bytes, plan, stop);
    assert_eq!(rt; made(rt, &mut disk), Ok(()));
    match opened(rt, &mut disk) {
        Ok(chip) => (chip, disk),
        Err(_) => panic!(rt; "a chip"),
    }
}

/// How many of these moments had come.
fn come(moment: u64, moments: &[u64]) -> u64 {
    let mut count: u64 = 0;
    for begun in moments {
        if *begun <= moment {
            count = count.saturating_add(1);
        }
    }
    count
}

/// What a crash at a moment leaves: at least the states that were answered, at most those that were begun.
fn is_between(
    rt: &impl Abort,
    alloc: Global,
    disk: &MemoryDisk,
    moment: u64,
    begun: &[u64],
    answered: &[u64],
) -> bool {
    let (least, most) = (come(moment, answered), come(moment, begun));
    for torn in TORN {
        let read = crashed(rt, alloc, disk, moment, torn);
        if read < least || most < read {
            return false;
        }
    }
    true
}

/// Imports a link, and gives how many device calls there were by then.
fn linked(
    rt: &impl Abort,
    alloc: Global,
    chip: &mut Chip,
    disk: &mut MemoryDisk,
    bytes: &[u8],
) -> u64 {
    let link = given(rt, alloc, chip, disk, bytes);
    assert!(rt; link == Ok(Imported::Link));
    disk.calls()
}

/// Whether every crash of the disk's past leaves one of these states.
fn are_between(
    rt: &impl Abort,
    alloc: Global,
    disk: &MemoryDisk,
    begun: &[u64],
    answered: &[u64],
) -> bool {
    for moment in 0..disk.calls().saturating_add(1) {
        if !is_between(rt, alloc, disk, moment, begun, answered) {
            return false;
        }
    }
    true
}

/// Whether every crash about two links leaves the state before or after a call.
fn two_links_fit(rt: &impl Abort, alloc: Global, slots: u64) -> bool {
    let (mut chip, mut disk) = chip_on(rt, alloc, slots, FailPlan::new(alloc), None);
    let made = slots.saturating_add(6);
    let first = disk.calls();
    let second = linked(rt, alloc, &mut chip, &mut disk, FIRST_TO_SECOND);
    let last = linked(rt, alloc, &mut chip, &mut disk, SECOND_TO_THIRD);
    assert!(rt; second == first.saturating_add(5));
    drop(chip);
    let fits = are_between(rt, alloc, &disk, &[1, first, second], &[made, second, last]);
    drop(disk);
    fits
}

#[test]
fn every_crash_leaves_the_state_before_or_after_a_call(rt: HostRuntime) {
    let alloc = rt.alloc();
    for slots in RINGS {
        assert!(rt; two_links_fit(&rt, alloc, slots));
    }
}

/// A link fails at the disk, and the next one asks for an opening.
fn fail_a_link(rt: &impl Abort, alloc: Global, chip: &mut Chip, disk: &mut MemoryDisk) {
    let link = given(rt, alloc, chip, disk, FIRST_TO_SECOND);
    assert!(rt; link == Err(ChipRefusal::DiskFault));
    let again = given(rt, alloc, chip, disk, FIRST_TO_SECOND);
    assert!(rt; again == Err(ChipRefusal::NeedsOpen));
}

fn stopped_link_fits(rt: &impl Abort, alloc: Global, slots: u64, stop: u64) -> bool {
    let (mut chip, mut disk) = chip_on(rt, alloc, slots, FailPlan::new(alloc), Some(stop));
    fail_a_link(rt, alloc, &mut chip, &mut disk);
    drop(chip);
    let fits = is_between(rt, alloc, &disk, disk.calls(), &[0, 0], &[0]);
    drop(disk);
    fits
}

#[test]
fn a_link_that_is_stopped_anywhere_is_there_or_not(rt: HostRuntime) {
    let alloc = rt.alloc();
    for slots in RINGS {
        let begun = slots.saturating_mul(2).saturating_add(7);
        for stop in begun..begun.saturating_add(5) {
            assert!(rt; stopped_link_fits(&rt, alloc, slots, stop));
        }
    }
}

/// The memory after a link whose gate failed twice.
fn failed_at_gate(rt: &impl Abort, alloc: Global, slots: u64) -> MemoryDisk {
    let gate = slots.saturating_mul(2).saturating_add(11);
    let plan = failing(rt, alloc, &[gate, gate.saturating_add(1)]);
    let (mut chip, mut disk) = chip_on(rt, alloc, slots, plan, None);
    fail_a_link(rt, alloc, &mut chip, &mut disk);
    drop(chip);
    disk
}

/// The generation that the second opening finds.
fn settled(rt: &impl Abort, disk: &mut MemoryDisk) -> u64 {
    let first = generation_of(opened(rt, disk));
    assert!(rt; first == Err(ChipRefusal::DiskFault));
    match generation_of(opened(rt, disk)) {
        Ok(generation) => generation,
        Err(_) => panic!(rt; "a chip"),
    }
}

/// Whether each crash by now reads so.
fn always_reads(rt: &impl Abort, alloc: Global, disk: &MemoryDisk, read: u64) -> bool {
    for torn in TORN {
        if crashed(rt, alloc, disk, disk.calls(), torn) != read {
            return false;
        }
    }
    true
}

fn failed_gate_is_settled(rt: &impl Abort, alloc: Global, slots: u64) -> bool {
    let mut disk = failed_at_gate(rt, alloc, slots);
    let generation = settled(rt, &mut disk);
    let reads = always_reads(rt, alloc, &disk, generation.saturating_add(1));
    drop(disk);
    generation <= 1 && reads
}

#[test]
fn a_failed_gate_is_settled_by_an_opening(rt: HostRuntime) {
    let alloc = rt.alloc();
    for slots in RINGS {
        assert!(rt; failed_gate_is_settled(&rt, alloc, slots));
    }
}

/// The memory of one chip with its only record moved to the last generation.
fn worn(rt: &impl Abort, alloc: Global, slots: u64, image: &[u8]) -> Octets {
    let record = image.get(10..8192).expect(rt, "a slot");
    let mut worn = Octets::new(alloc);
    for slot in 0..slots {
        if u64::MAX % slots.max(1) == slot {
            worn.push_all(&[0xa5, 1, 255, 255, 255, 255, 255, 255, 255, 255])
                .expect(rt, "memory");
            worn.push_all(record).expect(rt, "memory");
        } else {
            worn.push_all(&[0; 8192]).expect(rt, "memory");
        }
    }
    worn
}

fn worn_disk(rt: &impl Abort, alloc: Global, slots: u64) -> MemoryDisk {
    let (chip, disk) = chip_on(rt, alloc, slots, FailPlan::new(alloc), None);
    drop(chip);
    let image = disk.crashed(alloc, disk.calls(), 0).expect(rt, "memory");
    drop(disk);
    let bytes = worn(rt, alloc, slots, image.as_slice());
    drop(image);
    MemoryDisk::new(alloc, bytes, FailPlan::new(alloc), None)
}

/// What a worn chip answers to a certificate that changes its state, to its own root and to other bytes.
fn answer_worn(rt: &impl Abort, alloc: Global, chip: &mut Chip, disk: &mut MemoryDisk) {
    let domestic = given(rt, alloc, chip, disk, DOMESTIC);
    assert!(rt; domestic == Err(ChipRefusal::Worn));
    let root = given(rt, alloc, chip, disk, ROOT);
    assert!(rt; root == Ok(Imported::Held));
    let other = given(rt, alloc, chip, disk, b"no certificate");
    assert!(rt; other.is_err());
}

fn worn_chip_answers(rt: &impl Abort, alloc: Global, slots: u64) {
    let mut disk = worn_disk(rt, alloc, slots);
    let Ok(mut chip) = opened(rt, &mut disk) else {
        panic!(rt; "a chip");
    };
    assert!(rt; chip.generation() == u64::MAX);
    answer_worn(rt, alloc, &mut chip, &mut disk);
    drop(chip);
    drop(disk);
}

#[test]
fn a_worn_chip_keeps_its_state(rt: HostRuntime) {
    let alloc = rt.alloc();
    for slots in RINGS {
        worn_chip_answers(&rt, alloc, slots);
    }
}

/// Whether a memory of so many bytes answers so to a making, and as it should to what comes after.
fn answers(rt: &impl Abort, alloc: Global, bytes: u64, answer: Result<(), MakeRefusal>) -> bool {
    let memory = zeros(rt, alloc, bytes);
    let mut disk = MemoryDisk::new(alloc, memory, FailPlan::new(alloc), None);
    let again = if answer.is_ok() {
        Err(MakeRefusal::Made)
    } else {
        answer
    };
    let first = made(rt, &mut disk);
    let second = made(rt, &mut disk);
    let generation = generation_of(opened(rt, &mut disk));
    drop(disk);
    first == answer && second == again && generation.is_ok() == answer.is_ok()
}

#[test]
fn a_memory_has_two_to_sixteen_slots(rt: HostRuntime) {
    let alloc = rt.alloc();
    let table: [(u64, Result<(), MakeRefusal>); 6] = [
        (8_192, Err(MakeRefusal::Size)),
        (16_384, Ok(())),
        (20_000, Err(MakeRefusal::Size)),
        (24_576, Ok(())),
        (131_072, Ok(())),
        (139_264, Err(MakeRefusal::Size)),
    ];
    for (bytes, answer) in table {
        assert!(rt; answers(&rt, alloc, bytes, answer));
    }
}

/// Makes a chip, which is refused a second time.
fn make_once(rt: &impl Abort, disk: &mut FileDisk) {
    let Ok(root) = view_cert(ROOT) else {
        panic!(rt; "a certificate");
    };
    let day = day_from_text(b"240101").expect(rt, "a day");
    assert!(rt; make_chip(disk, &root, day) == Ok(()));
    assert!(rt; make_chip(disk, &root, day) == Err(MakeRefusal::Made));
}

#[test]
fn a_chip_in_a_file_is_made_once_and_opened_again(rt: HostRuntime) {
    let path = "chip_slots_test_disk";
    // what an earlier run left
    let _ = fs::remove_file(&rt, path);
    let Ok(mut disk) = FileDisk::make(&rt, path, 16_384) else {
        panic!(rt; "a file");
    };
    assert!(rt; generation_of(open_chip(&mut disk)) == Err(ChipRefusal::NoChip));
    make_once(&rt, &mut disk);
    assert!(rt; generation_of(open_chip(&mut disk)) == Ok(0));
    assert!(rt; FileDisk::make(&rt, path, 16_384).is_err());
    assert!(rt; fs::remove_file(&rt, path).is_ok());
    drop(disk);
}
