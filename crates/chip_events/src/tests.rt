// Events of a chip, with certificates of another program.
//
// Owned values are let go by a call of `drop`: at the end of a scope each part of them would be proved apart.
mod certs;

use self::certs::{DOMESTIC, FIRST_TO_SECOND, ROOT, UNDER_DOMESTIC, UNSIGNED};
use crate::{
    ImportAnswer, ImportCount, Looked, MakeAnswer, Shown, ShownEnd, import, look, make, open_for,
    references, show,
};
use chip_slots::{Chip, ChipDisk, ChipRefusal, MemoryDisk};
use chip_verify::{ImportRefusal, Imported};
use cv_dates::day_from_text;
use eac_base::{Acks, ByteLists, FailPlan, Octets};
use signature_provider::DigestProvider;
use std::alloc::Global;
use std::process::Abort;

fn zeros(rt: &impl Abort, alloc: Global, bytes: u64) -> Octets {
    let mut zeros = Octets::new(alloc);
    for _ in 0..bytes / 8 {
        zeros.push_all(&[0; 8]).expect(rt, "memory");
    }
    zeros
}

fn failing(rt: &impl Abort, alloc: Global, calls: &[u64]) -> FailPlan {
    let mut plan = FailPlan::new(alloc);
    for call in calls {
        plan.push(*call).expect(rt, "memory");
    }
    plan
}

fn disk_of(rt: &impl Abort, alloc: Global, bytes: u64, plan: FailPlan) -> MemoryDisk {
    MemoryDisk::new(alloc, zeros(rt, alloc, bytes), plan, None)
}

fn made(rt: &impl Abort, disk: &mut MemoryDisk, root: &[u8]) -> MakeAnswer {
    let day = day_from_text(b"240101").expect(rt, "a day");
    match make(disk, root, day) {
        Ok(answer) => answer,
        Err(_) => panic!(rt; "memory"),
    }
}

fn is_made(answer: MakeAnswer) -> bool {
    match answer {
        MakeAnswer::Made { .. } => true,
        _ => false,
    }
}

/// A chip that was made on a memory of two slots, whose device calls fail by a plan.
fn chip_on(rt: &impl Abort, alloc: Global, plan: FailPlan) -> MemoryDisk {
    let mut disk = disk_of(rt, alloc, 16_384, plan);
    assert!(rt; is_made(made(rt, &mut disk, ROOT)));
    disk
}

/// The generation that a look tells, and one more; 0 for none.
fn generation(rt: &impl Abort, disk: &mut MemoryDisk) -> u64 {
    match look(disk) {
        Ok(Looked::Read { state, generation }) => {
            drop(state);
            generation.saturating_add(1)
        }
        Ok(Looked::NotOpened(ChipRefusal::NoChip)) => 0,
        _ => panic!(rt; "a chip or none"),
    }
}

#[test]
fn a_making_answers_in_order(rt: HostRuntime) {
    let alloc = rt.alloc();
    let mut wrong = disk_of(&rt, alloc, 20_000, FailPlan::new(alloc));
    assert!(rt; matches!(made(&rt, &mut wrong, b"no root"), MakeAnswer::WrongSize));
    assert!(rt; wrong.calls() == 0);
    drop(wrong);
    let mut disk = disk_of(&rt, alloc, 16_384, FailPlan::new(alloc));
    assert!(rt; matches!(made(&rt, &mut disk, DOMESTIC), MakeAnswer::Unfounded));
    assert!(rt; matches!(made(&rt, &mut disk, b"no root"), MakeAnswer::Unfounded));
    assert!(rt; disk.calls() == 0);
    assert!(rt; is_made(made(&rt, &mut disk, ROOT)));
    assert!(rt; matches!(made(&rt, &mut disk, ROOT), MakeAnswer::WasMade));
    drop(disk);
    let plan = failing(&rt, alloc, &[1]);
    let mut faulty = disk_of(&rt, alloc, 16_384, plan);
    assert!(rt; matches!(made(&rt, &mut faulty, ROOT), MakeAnswer::DiskFault));
    drop(faulty);
}

#[test]
fn a_look_tells_what_stands(rt: HostRuntime) {
    let alloc = rt.alloc();
    let mut blank = disk_of(&rt, alloc, 16_384, FailPlan::new(alloc));
    assert!(rt; generation(&rt, &mut blank) == 0);
    drop(blank);
    let mut disk = chip_on(&rt, alloc, FailPlan::new(alloc));
    match look(&mut disk) {
        Ok(Looked::Read { state, generation }) => {
            assert!(rt; state.day.number() == 8_766 && generation == 0);
            drop(state);
        }
        _ => panic!(rt; "a chip"),
    }
    drop(disk);
}

fn imported(
    rt: &impl Abort,
    alloc: Global,
    disk: &mut MemoryDisk,
    imports: &mut ImportCount,
    acks: &mut Acks,
    bytes: &[u8],
) -> ImportAnswer {
    let mut provider = DigestProvider::new(alloc, [0; 32]);
    let answer = import(disk, &mut provider, imports, acks, bytes);
    drop(provider);
    match answer {
        Ok(answer) => answer,
        Err(_) => panic!(rt; "memory"),
    }
}

fn took(answer: ImportAnswer) -> Option<Imported> {
    match answer {
        ImportAnswer::Took { taken, .. } => Some(taken.what),
        _ => None,
    }
}

fn refused(answer: ImportAnswer) -> Option<ChipRefusal> {
    match answer {
        ImportAnswer::NotTaken(refusal) => Some(refusal),
        _ => None,
    }
}

#[test]
fn each_import_counts_and_an_ok_is_acknowledged(rt: HostRuntime) {
    let alloc = rt.alloc();
    let mut disk = chip_on(&rt, alloc, FailPlan::new(alloc));
    let mut imports = ImportCount { chip: 7, count: 0 };
    let mut acks = Acks::new(alloc);
    let link = imported(
        &rt,
        alloc,
        &mut disk,
        &mut imports,
        &mut acks,
        FIRST_TO_SECOND,
    );
    assert!(rt; took(link) == Some(Imported::Link));
    let calls = disk.calls();
    let other = imported(
        &rt,
        alloc,
        &mut disk,
        &mut imports,
        &mut acks,
        b"no certificate",
    );
    assert!(rt; matches!(refused(other), Some(ChipRefusal::Syntax(_))));
    let unsigned = imported(&rt, alloc, &mut disk, &mut imports, &mut acks, UNSIGNED);
    assert!(rt; refused(unsigned) == Some(ChipRefusal::Refused(ImportRefusal::Signature)));
    assert!(rt; imports.count == 3 && acks.len() == 1);
    match acks.get(0) {
        Some(ack) => assert!(rt; ack.chip == 7 && ack.import == 1 && ack.calls == calls),
        None => panic!(rt; "an acknowledgement"),
    }
    assert!(rt; generation(&rt, &mut disk) == 2);
    drop(acks);
    drop(disk);
}

#[test]
fn without_a_chip_nothing_is_imported(rt: HostRuntime) {
    let alloc = rt.alloc();
    let mut disk = disk_of(&rt, alloc, 16_384, FailPlan::new(alloc));
    let mut imports = ImportCount { chip: 0, count: 0 };
    let mut acks = Acks::new(alloc);
    let answer = imported(&rt, alloc, &mut disk, &mut imports, &mut acks, ROOT);
    assert!(rt; matches!(answer, ImportAnswer::NotOpened(ChipRefusal::NoChip)));
    assert!(rt; imports.count == 0 && acks.len() == 0);
    drop(acks);
    drop(disk);
}

fn chain(rt: &impl Abort, alloc: Global, certs: &[&[u8]]) -> ByteLists {
    let mut chain = ByteLists::new(alloc);
    for cert in certs {
        chain.push(cert).expect(rt, "memory");
    }
    chain
}

fn opened(rt: &impl Abort, disk: &mut MemoryDisk) -> Chip {
    match open_for(disk) {
        Ok(Ok(chip)) => chip,
        _ => panic!(rt; "a chip"),
    }
}

/// Opens the chip and shows it a chain.
fn shown(
    rt: &impl Abort,
    alloc: Global,
    disk: &mut MemoryDisk,
    acks: &mut Acks,
    certs: &[&[u8]],
) -> Shown {
    let mut provider = DigestProvider::new(alloc, [0; 32]);
    let mut imports = ImportCount { chip: 0, count: 0 };
    let certs = chain(rt, alloc, certs);
    let mut chip = opened(rt, disk);
    let shown = show(
        alloc,
        disk,
        &mut provider,
        &mut imports,
        acks,
        &mut chip,
        &certs,
    );
    drop(chip);
    drop(certs);
    drop(provider);
    match shown {
        Ok(shown) => shown,
        Err(_) => panic!(rt; "memory"),
    }
}

#[test]
fn a_chain_ends_in_a_grant(rt: HostRuntime) {
    let alloc = rt.alloc();
    let mut disk = chip_on(&rt, alloc, FailPlan::new(alloc));
    let mut acks = Acks::new(alloc);
    let Shown { taken, end } = shown(
        &rt,
        alloc,
        &mut disk,
        &mut acks,
        &[DOMESTIC, UNDER_DOMESTIC],
    );
    match end {
        ShownEnd::AllTaken(Some(grant)) => assert!(rt; grant.day.number() > 8_766),
        _ => panic!(rt; "a grant"),
    }
    assert!(rt; taken.len() == 2 && acks.len() == 2);
    drop(taken);
    drop(acks);
    drop(disk);
}

#[test]
fn showing_stops_at_the_first_refusal(rt: HostRuntime) {
    let alloc = rt.alloc();
    let mut disk = chip_on(&rt, alloc, FailPlan::new(alloc));
    let mut acks = Acks::new(alloc);
    let some = shown(
        &rt,
        alloc,
        &mut disk,
        &mut acks,
        &[ROOT, UNDER_DOMESTIC, DOMESTIC],
    );
    assert!(rt;
        matches!(
            some.end,
            ShownEnd::NotTaken(ChipRefusal::Refused(ImportRefusal::NoIssuer))
        )
    );
    assert!(rt; some.taken.len() == 1 && acks.len() == 1);
    drop(some);
    drop(acks);
    drop(disk);
}

#[test]
fn the_newest_point_is_asked_for_first(rt: HostRuntime) {
    let alloc = rt.alloc();
    let mut disk = chip_on(&rt, alloc, FailPlan::new(alloc));
    let mut imports = ImportCount { chip: 0, count: 0 };
    let mut acks = Acks::new(alloc);
    let link = imported(
        &rt,
        alloc,
        &mut disk,
        &mut imports,
        &mut acks,
        FIRST_TO_SECOND,
    );
    assert!(rt; took(link) == Some(Imported::Link));
    let chip = opened(&rt, &mut disk);
    let Ok(cars) = references(alloc, &chip) else {
        panic!(rt; "memory");
    };
    assert!(rt; cars.len() == 2);
    match cars.first() {
        Some(first) => assert!(rt; *first == chip.state().newest.reference),
        None => panic!(rt; "a reference"),
    }
    drop(cars);
    drop(chip);
    drop(acks);
    drop(disk);
}

/// The generation that a crash at this moment leaves, and one more.
fn crashed(rt: &impl Abort, alloc: Global, disk: &MemoryDisk, moment: u64) -> u64 {
    if disk.calls() < moment {
        panic!(rt; "a moment that was");
    }
    let Ok(image) = disk.crashed(alloc, moment, 0xa5) else {
        panic!(rt; "memory");
    };
    let mut disk = MemoryDisk::new(alloc, image, FailPlan::new(alloc), None);
    let read = generation(rt, &mut disk);
    drop(disk);
    read
}

#[test]
fn a_crash_between_events_leaves_what_was_answered(rt: HostRuntime) {
    let alloc = rt.alloc();
    let mut disk = chip_on(&rt, alloc, FailPlan::new(alloc));
    let made = disk.calls();
    let mut imports = ImportCount { chip: 0, count: 0 };
    let mut acks = Acks::new(alloc);
    let link = imported(
        &rt,
        alloc,
        &mut disk,
        &mut imports,
        &mut acks,
        FIRST_TO_SECOND,
    );
    assert!(rt; took(link) == Some(Imported::Link));
    assert!(rt; crashed(&rt, alloc, &disk, 0) == 0);
    assert!(rt; crashed(&rt, alloc, &disk, made) == 1);
    assert!(rt; crashed(&rt, alloc, &disk, disk.calls()) == 2);
    drop(acks);
    drop(disk);
}

#[test]
fn a_failed_import_is_settled_by_a_look(rt: HostRuntime) {
    let alloc = rt.alloc();
    let plan = failing(&rt, alloc, &[15]);
    let mut disk = chip_on(&rt, alloc, plan);
    let mut imports = ImportCount { chip: 0, count: 0 };
    let mut acks = Acks::new(alloc);
    let link = imported(
        &rt,
        alloc,
        &mut disk,
        &mut imports,
        &mut acks,
        FIRST_TO_SECOND,
    );
    assert!(rt; refused(link) == Some(ChipRefusal::DiskFault));
    assert!(rt; imports.count == 1 && acks.len() == 0);
    let settled = generation(&rt, &mut disk);
    assert!(rt; settled == 1 || settled == 2);
    assert!(rt; crashed(&rt, alloc, &disk, disk.calls()) == settled);
    drop(acks);
    drop(disk);
}
