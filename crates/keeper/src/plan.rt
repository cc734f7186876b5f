// Which calls of a keeper in memory fail, and when.
ghost use Rattle.std.specs.Prelude.{◌≡◌, [], ◌∷◌, ◌++◌, length, OnOk, OnErr, slice_get};
ghost use Rattle.std.specs.Option.{option_copied};
ghost use Rattle.eac_base.specs.Planned.{next_count};
ghost use Rattle.keeper.specs.Keeping.{FaultRose};
ghost use Rattle.keeper.specs.Planned.{moment_at, next_moment, faults_after};

use crate::KeepRefusal;
use eac_base::NoMemory;
use std::alloc::Global;
use std::marker::Model;

/// Whether a call fails before its change or after it.
#[derive(Clone, Copy, Debug, PartialEq, Eq)]
pub enum Moment {
    /// The rows stay as they were.
    Before,
    /// The rows are as the call leaves them.
    After,
}

/// The numbers of the calls that fail, counted from 1 over all calls of a keeper, each with its moment. Of two pairs
/// with one number the first counts.
#[derive(Debug, Drop)]
pub struct KeeperPlan {
    calls: Vec<(u64, Moment)>,
}

impl Model for KeeperPlan {
    ghost use Rattle.std.specs.Prelude.{ℕ, List};
    ghost use Rattle.keeper.specs.declared.plan.Moment.{Moment};

    ghost Value = { List (ℕ × Moment) };

    ghost view = { λ p. p.calls.items };
}

impl KeeperPlan {
    /// No call fails.
    pub fn new(alloc: Global) -> KeeperPlan
        ensures { result ≡ [] }
    {
        KeeperPlan {
            calls: Vec::new(alloc),
        }
    }

    /// Adds a call that fails, or nothing where memory is wanting.
    pub fn push(&mut self, item: (u64, Moment)) -> Result<(), NoMemory>
        ensures pushed { OnOk result (self.new ≡ self.old ++ item ∷ []) }
        ensures kept { OnErr result (self.new ≡ self.old) }
    {
        self.calls.push(item)?;
        Ok(())
    }

    /// The number of pairs.
    pub fn len(&self) -> usize
        ensures { result ≡ length self.now }
    {
        self.calls.len()
    }

    /// The pair at a place from 0, and none from the length on.
    pub fn get(&self, at: usize) -> Option<&(u64, Moment)>
        ensures { option_copied result ≡ slice_get self.now at }
    {
        self.calls.get(at)
    }

    /// When the call of this number fails, where it does.
    pub fn moment_at(&self, call: u64) -> Option<Moment>
        ensures { result ≡ moment_at self.now call }
    {
        match self.calls.iter().find(|pair| pair.0 == call) {
            Some(pair) => Some(pair.1),
            None => None,
        }
    }
}

/// Counts a call, and gives when it fails, where it does. The count stays at its last value.
pub(crate) fn begin(plan: &KeeperPlan, calls: &mut u64) -> Option<Moment>
    ensures planned { result ≡ next_moment plan.now calls.old }
    ensures calls { calls.new ≡ next_count calls.old }
{
    match calls.checked_add(1) {
        Some(call) => {
            *calls = call;
            plan.moment_at(call)
        }
        None => None,
    }
}

/// Counts a fault exactly where the answer is `Failed`. The count stays at its last value.
pub(crate) fn count_fault<T>(faults: &mut u64, answer: &Result<T, KeepRefusal>)
    ensures exact { faults.new ≡ faults_after answer.now faults.old }
    ensures cause { FaultRose faults.old faults.new answer.now }
{
    if matches!(answer, Err(KeepRefusal::Failed)) {
        *faults = faults.saturating_add(1);
    }
}
