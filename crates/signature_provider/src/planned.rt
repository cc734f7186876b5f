// Calls that fail by a plan.
ghost use Rattle.std.specs.Prelude.{◌≡◌, ◌≤◌, IsTrue, ◌↔◌, if◌then◌else◌};
ghost use Rattle.eac_base.specs.Planned.{IsPlanned, next_count};

use eac_base::{FailPlan, counted};

/// Counts a call, and its failing where it fails by the plan. Gives whether it fails. Both counts stay at their last
/// value.
pub(crate) fn begin(plan: &FailPlan, calls: &mut u64, faults: &mut u64) -> bool
    ensures planned { IsTrue result ↔ IsPlanned plan.now calls.old }
    ensures calls { calls.new ≡ next_count calls.old }
    ensures faults { faults.new ≡ (if result then next_count faults.old else faults.old) }
    ensures later { faults.old ≤ faults.new }
{
    let (fails, counted_calls) = counted(plan, *calls);
    *calls = counted_calls;
    if fails {
        *faults = faults.saturating_add(1);
    }
    fails
}
