// A disk in memory.
ghost use Rattle.std.specs.Prelude.{◌≡◌, ◌≤◌, ◌<◌, ◌+◌, ◌-◌, ◌++◌, ◌∷◌, ◌↔◌, ◌⊎◌, [], vec_len, vec_capacity, ℕ, length};
ghost use Rattle.std.specs.Prelude.{OnOk, IfOk, IfSome, option_map, OnErr, IsErr, IsTrue, is_ok};
ghost use Rattle.std.specs.Prelude.{slice_range};
ghost use Rattle.eac_base.specs.Causes.{HasCause};
ghost use Rattle.eac_base.specs.Planned.{IsPlanned};
ghost use Rattle.chip_slots.specs.Crash.{Crash, Reads, Writes, Syncs, CountsCall, DeviceCall};
ghost use Rattle.chip_slots.specs.Recorded.{Idle, Wrote, Torn, Synced, told_by, put, FailsNext, IsStopped, IsSame};
ghost use Rattle.chip_slots.specs.Recorded.{IsCounted, stands_now, writing, syncing, torn_image, faults_after};

use crate::ChipDisk;
use crate::disk::replay::image_of;
use eac_base::{FailPlan, Failed, NoMemory, Octets, counted};
use std::alloc::Global;
use std::marker::Model;

/// A device call as it is written down.
#[derive(Clone, Copy, Debug, PartialEq, Eq)]
pub enum Step {
    /// A reading, or a sync that failed.
    Idle,
    /// A write of so many bytes at a place.
    Wrote { at: u64, size: u64 },
    /// A write that failed.
    Torn { at: u64, size: u64 },
    Synced,
}

/// A disk in memory. It tells what stood at each moment, and its device calls fail by a plan.
#[derive(Drop)]
pub struct MemoryDisk {
    alloc: Global,
    first: Octets,
    // what a read gives, once there is room for calls
    bytes: Option<Vec<u8>>,
    steps: Vec<Step>,
    // the bytes of all writes, one behind another
    texts: Vec<u8>,
    plan: FailPlan,
    stop_after: Option<u64>,
    faults: u64,
}

impl Model for MemoryDisk {
    ghost use Rattle.std.specs.Prelude.{◌≡◌, ◌-◌, length, vec_len, vec_capacity, option_map};
    ghost use Rattle.chip_slots.specs.Recorded.{DiskValue};
    ghost use Rattle.chip_slots.specs.Steps.{seen, all_written, KeepsNow, room, AreWithin};

    ghost Value = { DiskValue };

    ghost view = { λ d. record {
      first = d.first;
      done = seen d.steps.items d.texts.items;
      plan = d.plan;
      stop_after = d.stop_after;
      faults = d.faults;
      spare = room (option_map (λ v. v.items) d.bytes) (vec_capacity d.steps - vec_len d.steps)
          (vec_capacity d.texts - vec_len d.texts);
    } };

    ghost invariant = { λ d. KeepsNow d.first (seen d.steps.items d.texts.items) (option_map (λ v. v.items) d.bytes)
        × (all_written d.steps.items ≡ length d.texts.items) × AreWithin (length d.first) d.steps.items };
}

// Writes a step down where there is room.
fn note(steps: &mut Vec<Step>, step: Step)
    requires { vec_len steps.old < vec_capacity steps.old }
    ensures items { steps.new.items ≡ steps.old.items ++ step ∷ [] }
    ensures len { vec_len steps.new ≡ vec_len steps.old + 1 }
    ensures capacity { vec_capacity steps.old ≤ vec_capacity steps.new }
{
    let _ = steps.push(step);
}

fn append(texts: &mut Vec<u8>, from: &[u8])
    requires { vec_len texts.old + length from.now ≤ vec_capacity texts.old }
    ensures items { texts.new.items ≡ texts.old.items ++ from.now }
    ensures len { vec_len texts.new ≡ vec_len texts.old + length from.now }
    ensures capacity { vec_capacity texts.old ≤ vec_capacity texts.new }
{
    let _ = texts.extend_from_slice(from);
}

fn is_stopped(stop_after: Option<u64>, calls: u64) -> bool
    ensures { IsTrue result ↔ IsStopped stop_after calls }
{
    match stop_after {
        None => false,
        Some(stop) => stop <= calls,
    }
}

// Whether the call after so many calls is to fail.
fn is_to_fail(plan: &FailPlan, stop_after: Option<u64>, calls: u64) -> bool
    ensures { IsTrue result ↔ (IsPlanned plan.now calls ⊎ IsStopped stop_after calls) }
{
    let (planned, _) = counted(plan, calls);
    planned || is_stopped(stop_after, calls)
}

/// The bytes with these in their place.
pub fn place(bytes: &mut [u8], at: usize, from: &[u8])
    requires { at + length from.now ≤ length bytes.old }
    ensures { bytes.new ≡ put at from.now bytes.old }
{
    bytes[at..at + from.len()].copy_from_slice(from);
}

// The bytes with these in their place.
fn put_in(bytes: &mut Option<Vec<u8>>, at: u64, from: &[u8])
    requires { IfSome bytes.old (λ v. at + length from.now ≤ length v.items) }
    ensures { option_map (λ v. v.items) bytes.new ≡ option_map (λ v. put at from.now v.items) bytes.old }
{
    if let Some(bytes) = bytes {
        place(bytes, at as usize, from);
    }
}

fn copy_part(bytes: &[u8], at: usize, into: &mut [u8])
    requires { at + length into.old ≤ length bytes.now }
    ensures { into.new ≡ slice_range bytes.now at (at + length into.old) }
{
    into.copy_from_slice(&bytes[at..at + into.len()]);
}

fn give_from(bytes: &Option<Vec<u8>>, at: u64, into: &mut [u8])
    requires { IfSome bytes.now (λ v. at + length into.old ≤ length v.items) }
    ensures { IfSome bytes.now (λ v. into.new ≡ slice_range v.items at (at + length into.old)) }
{
    if let Some(bytes) = bytes {
        copy_part(bytes.as_slice(), at as usize, into);
    }
}

impl MemoryDisk {
    /// A disk with these bytes. Its device call of a number from 1 fails where the plan has that number, and each one
    /// fails once `stop_after` calls were made. It has no room for device calls before `reserve` has taken some.
    pub fn new(alloc: Global, bytes: Octets, plan: FailPlan, stop_after: Option<u64>) -> MemoryDisk
        ensures { result ≡ record {
          first = bytes;
          done = [];
          plan = plan;
          stop_after = stop_after;
          faults = 0;
          spare = 0;
        } }
    {
        MemoryDisk {
            alloc,
            first: bytes,
            bytes: None,
            steps: Vec::new(alloc),
            texts: Vec::new(alloc),
            plan,
            stop_after,
            faults: 0,
        }
    }

    /// The image with the byte `torn` in each place that a crash at this moment may change.
    ///
    /// # Errors
    ///
    /// [`NoMemory`] where memory is wanting.
    pub fn crashed(&self, alloc: Global, moment: u64, torn: u8) -> Result<Octets, NoMemory>
        requires { moment ≤ length self.now.done }
        ensures image { IfOk result (λ o. o ≡ torn_image torn (told_by self.now moment)) }
        ensures crash { IfOk result (λ o. Crash (told_by self.now moment) o) }
    {
        let steps = self.steps.as_slice();
        image_of(
            alloc,
            self.first.as_slice(),
            &steps[..moment as usize],
            self.texts.as_slice(),
            torn,
        )
    }

    // Whether the next call is to fail.
    fn fails(&self) -> bool
        ensures { IsTrue result ↔ FailsNext self.now }
    {
        is_to_fail(
            &self.plan,
            self.stop_after,
            self.steps.as_slice().len() as u64,
        )
    }

    // A call that changed nothing.
    fn idle(&mut self)
        requires { 0 < self.old.spare }
        ensures done { self.new.done ≡ self.old.done ++ Idle ∷ [] }
        ensures kept { IsSame self.old self.new }
        ensures spare { self.old.spare - 1 ≤ self.new.spare }
        ensures faults { self.new.faults ≡ self.old.faults }
    {
        note(&mut self.steps, Step::Idle);
    }

    // A write that failed.
    fn torn(&mut self, at: u64, size: u64)
        requires spare { 0 < self.old.spare }
        requires range { at + size ≤ length self.old.first }
        ensures done { self.new.done ≡ self.old.done ++ Torn at size ∷ [] }
        ensures kept { IsSame self.old self.new }
        ensures spare { self.old.spare - 1 ≤ self.new.spare }
        ensures faults { self.new.faults ≡ self.old.faults }
    {
        note(&mut self.steps, Step::Torn { at, size });
    }

    fn synced(&mut self)
        requires { 0 < self.old.spare }
        ensures done { self.new.done ≡ self.old.done ++ Synced ∷ [] }
        ensures kept { IsSame self.old self.new }
        ensures spare { self.old.spare - 1 ≤ self.new.spare }
        ensures faults { self.new.faults ≡ self.old.faults }
    {
        note(&mut self.steps, Step::Synced);
    }

    // Writes the bytes.
    fn wrote(&mut self, at: u64, from: &[u8])
        requires spare { 0 < self.old.spare }
        requires range { at + length from.now ≤ length self.old.first }
        requires piece { length from.now ≤ 8192 }
        ensures done { self.new.done ≡ self.old.done ++ Wrote at from.now ∷ [] }
        ensures kept { IsSame self.old self.new }
        ensures spare { self.old.spare - 1 ≤ self.new.spare }
        ensures faults { self.new.faults ≡ self.old.faults }
    {
        let size = from.len() as u64;
        note(&mut self.steps, Step::Wrote { at, size });
        append(&mut self.texts, from);
        put_in(&mut self.bytes, at, from);
    }

    fn write_or_tear(&mut self, at: u64, from: &[u8], fails: bool)
        requires spare { 0 < self.old.spare }
        requires range { at + length from.now ≤ length self.old.first }
        requires piece { length from.now ≤ 8192 }
        ensures done { self.new.done ≡ self.old.done ++ writing fails at from.now ∷ [] }
        ensures kept { IsSame self.old self.new }
        ensures spare { self.old.spare - 1 ≤ self.new.spare }
        ensures faults { self.new.faults ≡ self.old.faults }
    {
        if fails {
            self.torn(at, from.len() as u64);
        } else {
            self.wrote(at, from);
        }
    }

    fn sync_or_fail(&mut self, fails: bool)
        requires { 0 < self.old.spare }
        ensures done { self.new.done ≡ self.old.done ++ syncing fails ∷ [] }
        ensures kept { IsSame self.old self.new }
        ensures spare { self.old.spare - 1 ≤ self.new.spare }
        ensures faults { self.new.faults ≡ self.old.faults }
    {
        if fails {
            self.idle();
        } else {
            self.synced();
        }
    }

    // What a read gives.
    fn give(&self, at: u64, into: &mut [u8])
        requires spare { 0 < self.now.spare }
        requires range { at + length into.old ≤ length self.now.first }
        ensures { into.new ≡ slice_range (stands_now self.now).bytes at (at + length into.old) }
    {
        give_from(&self.bytes, at, into);
    }

    // Ends a call, which is counted where it failed.
    fn answer(&mut self, fails: bool) -> Result<(), Failed>
        ensures err { IsErr result ↔ IsTrue fails }
        ensures cause { HasCause self.old.faults self.new.faults result }
        ensures count { self.new.faults ≡ faults_after result self.old.faults }
        ensures rest { IsCounted self.old self.new }
    {
        if fails {
            self.faults = self.faults.saturating_add(1);
            return Err(Failed);
        }
        Ok(())
    }
}

impl ChipDisk for MemoryDisk {
    ghost use Rattle.std.specs.Prelude.{◌≡◌, ℕ, length};
    ghost use Rattle.chip_slots.specs.Recorded.{told_by};
    ghost use Rattle.chip_slots.specs.RecordedSizes.{measured_now};

    ghost tells = { λ d. Unit {0} };

    ghost told = { told_by };

    ghost size = { λ d. length d.first };

    ghost moment = { λ d. length d.done };

    ghost faults = { λ d. d.faults };

    ghost spare = { λ d. d.spare };

    ghost measured = { λ d told. measured_now d };

    fn len(&self) -> u64 {
        self.first.len() as u64
    }

    fn calls(&self) -> u64 {
        self.steps.as_slice().len() as u64
    }

    fn read(&mut self, at: u64, into: &mut [u8]) -> Result<(), Failed>
        requires range { at + length into.old ≤ length self.old.first }
        requires piece { length into.old ≤ 8192 }
        requires spare { 0 < self.old.spare }
        ensures bytes { OnOk result
            (into.new ≡ slice_range (told_by self.old (length self.old.done)).bytes at (at + length into.old)) }
        ensures call { DeviceCall (is_ok result) Reads
            (length self.old.done) (length self.new.done) (told_by self.old) (told_by self.new) }
        ensures size { length self.new.first ≡ length self.old.first }
        ensures moment { CountsCall (is_ok result) (length self.old.done) (length self.new.done) }
        ensures spare { self.old.spare - 1 ≤ self.new.spare }
        ensures cause { HasCause self.old.faults self.new.faults result }
        ensures count { self.new.faults ≡ faults_after result self.old.faults }
        // It fails exactly where it is to fail.
        ensures plan { IsErr result ↔ FailsNext self.old }
        ensures done { self.new.done ≡ self.old.done ++ Idle ∷ [] }
        ensures kept { IsSame self.old self.new }
    {
        let fails = self.fails();
        if !fails {
            self.give(at, into);
        }
        self.idle();
        self.answer(fails)
    }

    fn write_at(&mut self, at: u64, from: &[u8]) -> Result<(), Failed>
        requires range { at + length from.now ≤ length self.old.first }
        requires piece { length from.now ≤ 8192 }
        requires spare { 0 < self.old.spare }
        ensures call { DeviceCall (is_ok result) (Writes at from.now (is_ok result))
            (length self.old.done) (length self.new.done) (told_by self.old) (told_by self.new) }
        ensures size { length self.new.first ≡ length self.old.first }
        ensures moment { CountsCall (is_ok result) (length self.old.done) (length self.new.done) }
        ensures spare { self.old.spare - 1 ≤ self.new.spare }
        ensures cause { HasCause self.old.faults self.new.faults result }
        ensures count { self.new.faults ≡ faults_after result self.old.faults }
        // It fails exactly where it is to fail, and then changes no byte.
        ensures plan { IsErr result ↔ FailsNext self.old }
        ensures ok { OnOk result (self.new.done ≡ self.old.done ++ Wrote at from.now ∷ []) }
        ensures err { OnErr result (self.new.done ≡ self.old.done ++ Torn at (length from.now) ∷ []) }
        ensures kept { IsSame self.old self.new }
    {
        let fails = self.fails();
        self.write_or_tear(at, from, fails);
        self.answer(fails)
    }

    fn sync(&mut self) -> Result<(), Failed>
        requires spare { 0 < self.old.spare }
        ensures call { DeviceCall (is_ok result) (Syncs (is_ok result))
            (length self.old.done) (length self.new.done) (told_by self.old) (told_by self.new) }
        ensures size { length self.new.first ≡ length self.old.first }
        ensures moment { CountsCall (is_ok result) (length self.old.done) (length self.new.done) }
        ensures spare { self.old.spare - 1 ≤ self.new.spare }
        ensures cause { HasCause self.old.faults self.new.faults result }
        ensures count { self.new.faults ≡ faults_after result self.old.faults }
        // It fails exactly where it is to fail.
        ensures plan { IsErr result ↔ FailsNext self.old }
        ensures ok { OnOk result (self.new.done ≡ self.old.done ++ Synced ∷ []) }
        ensures err { OnErr result (self.new.done ≡ self.old.done ++ Idle ∷ []) }
        ensures kept { IsSame self.old self.new }
    {
        let fails = self.fails();
        self.sync_or_fail(fails);
        self.answer(fails)
    }

    fn reserve(&mut self) -> Result<(), NoMemory>
        ensures room { OnOk result (32 ≤ self.new.spare) }
        ensures spare { self.old.spare ≤ self.new.spare }
        ensures told { (m : ℕ) → told_by self.new m ≡ told_by self.old m }
        ensures size { length self.new.first ≡ length self.old.first }
        ensures moment { length self.new.done ≡ length self.old.done }
        ensures faults { self.new.faults ≡ self.old.faults }
        ensures done { self.new.done ≡ self.old.done }
        ensures kept { IsSame self.old self.new }
    {
        if self.bytes.is_none() {
            self.bytes = Some(Vec::from_slice(self.alloc, self.first.as_slice())?);
        }
        self.steps.reserve(32)?;
        self.texts.reserve(32 * 8192)?;
        Ok(())
    }
}
