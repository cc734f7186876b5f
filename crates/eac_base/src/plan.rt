// Which calls of a memory form fail.
ghost use Rattle.std.specs.Prelude.{◌≡◌, ℕ, ◌+◌, List, [], ◌∷◌, ◌++◌, length, OnOk, OnErr, slice_get, IsTrue, ◌↔◌, Contains};
ghost use Rattle.std.specs.Option.{option_copied};
ghost use Rattle.eac_base.specs.Planned.{IsPlanned, next_count};

use crate::NoMemory;
use std::alloc::Global;
use std::marker::Model;

/// The numbers of the calls that fail, counted from 1.
#[derive(Debug, Drop)]
pub struct FailPlan {
    numbers: Vec<u64>,
}

impl Model for FailPlan {
    ghost use Rattle.std.specs.Prelude.{ℕ, List};

    ghost Value = { List ℕ };

    ghost view = { λ p. p.numbers.items };
}

impl FailPlan {
    /// No call fails.
    pub fn new(alloc: Global) -> FailPlan
        ensures { result ≡ [] }
    {
        FailPlan {
            numbers: Vec::new(alloc),
        }
    }

    /// Adds the number of a call that fails, or nothing where memory is wanting.
    pub fn push(&mut self, item: u64) -> Result<(), NoMemory>
        ensures pushed { OnOk result (self.new ≡ self.old ++ item ∷ []) }
        ensures kept { OnErr result (self.new ≡ self.old) }
    {
        self.numbers.push(item)?;
        Ok(())
    }

    /// The number of numbers.
    pub fn len(&self) -> usize
        ensures { result ≡ length self.now }
    {
        self.numbers.len()
    }

    /// The number at a place from 0, and none from the length on.
    pub fn get(&self, at: usize) -> Option<&u64>
        ensures { option_copied result ≡ slice_get self.now at }
    {
        self.numbers.get(at)
    }

    /// Whether the call of this number fails.
    pub fn contains(&self, call: u64) -> bool
        ensures { IsTrue result ↔ Contains self.now call }
    {
        self.numbers.contains(&call)
    }
}

/// Counts a call. Gives whether it fails by the plan, and the new count, which stays at its last value.
pub fn counted(plan: &FailPlan, calls: u64) -> (bool, u64)
    ensures fails { IsTrue result.0 ↔ IsPlanned plan.now calls }
    ensures count { result.1 ≡ next_count calls }
{
    match calls.checked_add(1) {
        Some(call) => (plan.contains(call), call),
        None => (false, calls),
    }
}
