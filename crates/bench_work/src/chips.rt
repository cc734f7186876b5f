// Chips opened on a disk in memory, and given a link.

use crate::links::{LINK, ROOT};
use chip_slots::{Chip, ChipDisk, MemoryDisk, make_chip, open_chip};
use cv_dates::day_from_text;
use cvc_grammar::view_cert;
use eac_base::{FailPlan, Octets};
use signature_provider::DigestProvider;
use std::alloc::Global;

/// What is done with chips.
#[derive(Clone, Copy, Debug, PartialEq, Eq)]
pub enum ChipWork {
    /// One chip is opened.
    Open,
    /// A chip is made on a disk of its own and given a link, which is stored.
    Import,
}

impl ChipWork {
    pub fn named(word: &str) -> Option<ChipWork> {
        match word {
            "open" => Some(ChipWork::Open),
            "import" => Some(ChipWork::Import),
            _ => None,
        }
    }
}

// A made chip on a memory of two slots.
fn made(alloc: Global) -> Option<MemoryDisk> {
    let bytes = Octets::from_slice(alloc, &[0; 16_384]).ok()?;
    let mut disk = MemoryDisk::new(alloc, bytes, FailPlan::new(alloc), None);
    if disk.reserve().is_err() {
        return None;
    }
    let day = day_from_text(b"240101").ok()?;
    let Ok(root) = view_cert(ROOT) else {
        return None;
    };
    match make_chip(&mut disk, &root, day) {
        Ok(()) => Some(disk),
        Err(_) => None,
    }
}

fn opened(disk: &mut MemoryDisk) -> Option<Chip> {
    if disk.reserve().is_err() {
        return None;
    }
    match open_chip(disk) {
        Ok(chip) => Some(chip),
        Err(_) => None,
    }
}

// The generation after a link.
fn linked(alloc: Global) -> Option<u64> {
    let mut disk = made(alloc)?;
    if disk.reserve().is_err() {
        return None;
    }
    let Ok(mut chip) = open_chip(&mut disk) else {
        return None;
    };
    if disk.reserve().is_err() {
        return None;
    }
    let mut provider = DigestProvider::new(alloc, [0; 32]);
    match chip.import(&mut disk, &mut provider, LINK) {
        Ok(_) => Some(chip.generation()),
        Err(_) => None,
    }
}

// The sum of the generations of a chip that is opened so many times, each with one more.
fn opened_often(alloc: Global, times: u32) -> Option<u64> {
    let mut disk = made(alloc)?;
    let mut sum: u64 = 0;
    for _ in 0..times {
        let chip = opened(&mut disk)?;
        sum = sum.wrapping_add(chip.generation()).wrapping_add(1);
    }
    Some(sum)
}

fn linked_often(alloc: Global, times: u32) -> Option<u64> {
    let mut sum: u64 = 0;
    for _ in 0..times {
        sum = sum.wrapping_add(linked(alloc)?);
    }
    Some(sum)
}

pub fn work_on(alloc: Global, work: ChipWork, times: u32) -> Option<u64> {
    match work {
        ChipWork::Open => opened_often(alloc, times),
        ChipWork::Import => linked_often(alloc, times),
    }
}
