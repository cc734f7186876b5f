// A source in memory.
ghost use Rattle.std.specs.Prelude.{◌≡◌, ◌+◌, ◌<◌, ◌≤◌, length, drop, Some, None, IfOk, IsErr, ◌↔◌};
ghost use Rattle.std.specs.Io.{ReadsAtMost};
ghost use Rattle.std.specs.Io.KnownBytes.{ReadConsumes};
ghost use Rattle.eac_base.specs.Causes.{HasCause};
ghost use Rattle.eac_base.specs.Planned.{IsPlanned, after_read};

use crate::plan::counted;
use crate::{FailPlan, Failed, Octets, Source, Stream};
use std::marker::Model;

/// Bytes to read, whose reads fail by a plan.
#[derive(Debug, Drop)]
pub struct MemorySource {
    input: Octets,
    at: usize,
    most: u64,
    cut: u64,
    plan: FailPlan,
    calls: u64,
    faults: u64,
}

impl Model for MemorySource {
    ghost use Rattle.std.specs.Prelude.{◌<◌, ◌≤◌, length, drop};
    ghost use Rattle.eac_base.specs.Planned.{SourceValue};

    ghost Value = { SourceValue };

    ghost view = { λ s. record {
      left = drop s.at s.input;
      given = s.at;
      most = s.most;
      cut = s.cut;
      plan = s.plan;
      calls = s.calls;
      faults = s.faults;
    } };

    ghost invariant = { λ s. (s.at ≤ length s.input) × (0 < s.most) };
}

impl MemorySource {
    /// The bytes of `input`, at most `most` of them in one read, and no read from before the place `cut` to beyond it.
    pub fn new(input: Octets, most: u64, cut: u64, plan: FailPlan) -> MemorySource
        requires { 1 ≤ most }
        ensures { result ≡ record {
          left = input;
          given = 0;
          most = most;
          cut = cut;
          plan = plan;
          calls = 0;
          faults = 0;
        } }
    {
        MemorySource {
            input,
            at: 0,
            most,
            cut,
            plan,
            calls: 0,
            faults: 0,
        }
    }
}

// How many bytes a read gives, where so much room and rest are there and this many bytes were given before.
fn given(room: usize, rest: usize, at: usize, most: u64, cut: u64) -> usize
    ensures room { result ≤ room }
    ensures rest { result ≤ rest }
    ensures most { result ≤ most }
    ensures moves { 0 < room → 0 < rest → 0 < most → 0 < result }
    ensures cut { at < cut → at + result ≤ cut }
{
    let mut count = room.min(rest);
    if most < count as u64 {
        count = most as usize;
    }
    let before_cut = cut.saturating_sub(at as u64);
    if 0 < before_cut && before_cut < count as u64 {
        count = before_cut as usize;
    }
    count
}

impl Stream for MemorySource {
    ghost left = { λ s. Some s.left };

    ghost faults = { λ s. s.faults };

    ghost reads = { λ s. Some s.calls };

    ghost taken = { λ _. None };

    ghost lost = { λ _. 0 };
}

impl Source for MemorySource {
    fn read(&mut self, into: &mut [u8]) -> Result<usize, Failed>
        ensures count { ReadsAtMost result into.new }
        ensures bytes { ReadConsumes (Some self.old.left) (Some self.new.left) result into.new }
        ensures cause { HasCause self.old.faults self.new.faults result }
        // It fails exactly where its plan says.
        ensures plan { IsErr result ↔ IsPlanned self.old.plan self.old.calls }
        ensures most { IfOk result (λ n. n ≤ self.old.most) }
        ensures cut { IfOk result (λ n. self.old.given < self.old.cut → self.old.given + n ≤ self.old.cut) }
        ensures after { self.new ≡ after_read self.old result }
    {
        let (fails, calls) = counted(&self.plan, self.calls);
        self.calls = calls;
        if fails {
            self.faults = self.faults.saturating_add(1);
            return Err(Failed);
        }
        let bytes = self.input.as_slice();
        let rest = &bytes[self.at..];
        let count = given(into.len(), rest.len(), self.at, self.most, self.cut);
        into[..count].copy_from_slice(&rest[..count]);
        self.at += count;
        Ok(count)
    }
}
