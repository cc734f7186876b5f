// What stood on a disk in memory at a moment, and what a crash may have left of it.
ghost use Rattle.std.specs.Prelude.{◌≡◌, ◌≤◌, ◌+◌, length, take, drop, reverse, replicate, IfOk, OnOk};
ghost use Rattle.chip_slots.specs.Recorded.{played, fresh, put, torn_over, torn_image};
ghost use Rattle.chip_slots.specs.Steps.{seen, written, all_written, IsWithin, AreWithin, AreRanges};
ghost use Rattle.chip_slots.specs.Replays.{ReplaysTo, IsReplayed};

use crate::disk::memory::{Step, place};
use eac_base::{NoMemory, Octets};
use std::alloc::Global;

/// The bytes that a read gave, the ranges that were pending, the oldest first, and how many bytes of all writes were
/// taken.
#[derive(Drop)]
pub struct Replayed {
    pub bytes: Vec<u8>,
    pub pending: Vec<(u64, u64)>,
    pub taken: usize,
}

fn fill(bytes: &mut [u8], at: usize, size: usize, torn: u8)
    requires { at + size ≤ length bytes.old }
    ensures { bytes.new ≡ put at (replicate size torn) bytes.old }
{
    for i in 0..size {
        bytes[at + i] = torn;
    }
}

/// Puts the byte into each of the ranges.
fn tear(bytes: &mut [u8], ranges: &[(u64, u64)], torn: u8)
    requires { AreRanges (length bytes.old) ranges.now }
    ensures { bytes.new ≡ torn_over torn (reverse ranges.now) bytes.old }
{
    for i in 0..ranges.len() {
        let (at, size) = ranges[i];
        fill(bytes, at as usize, size as usize, torn);
    }
}

// The bytes of a write, from a place of all of them on.
fn text_of(texts: &[u8], from: usize, size: u64) -> &[u8]
    requires { from + size ≤ length texts.now }
    ensures { result.now ≡ take size (drop from texts.now) }
{
    let (_, rest) = texts.split_at(from);
    let (text, _) = rest.split_at(size as usize);
    text
}

fn place_in(bytes: &mut Vec<u8>, at: usize, text: &[u8])
    requires { at + length text.now ≤ length bytes.old.items }
    ensures { bytes.new.items ≡ put at text.now bytes.old.items }
{
    place(bytes, at, text);
}

// One more call.
fn replay_step(replayed: &mut Replayed, step: Step, texts: &[u8]) -> Result<(), NoMemory>
    requires within { IsWithin (length replayed.old.bytes.items) step }
    requires texts { replayed.old.taken + written step ≤ length texts.now }
    ensures { OnOk result (ReplaysTo step texts.now replayed.old replayed.new) }
{
    match step {
        Step::Idle => {}
        Step::Wrote { at, size } => {
            let text = text_of(texts, replayed.taken, size);
            place_in(&mut replayed.bytes, at as usize, text);
            replayed.pending.push((at, size))?;
            replayed.taken += size as usize;
        }
        Step::Torn { at, size } => {
            replayed.pending.push((at, size))?;
        }
        Step::Synced => {
            replayed.pending.clear();
        }
    }
    Ok(())
}

/// Plays the calls again, from these bytes on.
fn replay(alloc: Global, first: &[u8], steps: &[Step], texts: &[u8]) -> Result<Replayed, NoMemory>
    requires within { AreWithin (length first.now) steps.now }
    requires texts { all_written steps.now ≤ length texts.now }
    ensures { IfOk result (λ r. IsReplayed first.now steps.now texts.now r) }
{
    let mut replayed = Replayed {
        bytes: Vec::from_slice(alloc, first)?,
        pending: Vec::new(alloc),
        taken: 0,
    };
    for i in 0..steps.len() {
        replay_step(&mut replayed, steps[i], texts)?;
    }
    Ok(replayed)
}

/// The image with this byte in each place that a crash may change, once these calls were made.
pub fn image_of(
    alloc: Global,
    first: &[u8],
    steps: &[Step],
    texts: &[u8],
    torn: u8,
) -> Result<Octets, NoMemory>
    requires within { AreWithin (length first.now) steps.now }
    requires texts { all_written steps.now ≤ length texts.now }
    ensures { IfOk result (λ o. o ≡ torn_image torn (played (fresh first.now) (seen steps.now texts.now))) }
{
    let mut replayed = replay(alloc, first, steps, texts)?;
    tear(&mut replayed.bytes, &replayed.pending, torn);
    Octets::from_slice(alloc, &replayed.bytes)
}
