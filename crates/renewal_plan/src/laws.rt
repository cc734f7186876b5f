// What holds of plans. Each law is the contract of a function that does nothing.
ghost use Rattle.renewal_plan.specs.Plans.{OnePlan, OneAnswer};

/// There is one best plan.
pub fn there_is_one_plan()
    ensures { OnePlan }
{}

/// Where a day is uncovered, no plan covers the last day.
pub fn uncovered_days_exclude_plans()
    ensures { OneAnswer }
{}
