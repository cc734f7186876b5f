// The search for the plan: day after day, with the renewals so far and the day from which on nothing is covered.
ghost use Rattle.std.specs.Prelude.{◌≡◌, ◌+◌, Some, IfOk};
ghost use Rattle.renewal_plan.specs.Plans.{IsAnswer};
ghost use Rattle.renewal_plan.specs.Renewals as renewals;
ghost use Rattle.renewal_plan.specs.Searching as words;
ghost use Rattle.renewal_plan.specs.Searching.{HasDays};

use crate::lists::RenewalList;
use crate::need::Need;
use cv_dates::Day;
use eac_base::NoMemory;
use policy_limits::validity;
use std::alloc::Global;
use std::collections::BTreeSet;

/// What came of planning.
#[derive(Debug, Drop)]
pub enum Planned {
    /// The renewals, in the order of their days.
    Plan(RenewalList),
    /// The first day that no plan covers.
    Uncovered(Day),
}

// ---- one day

// Of a span and the best one behind it, the one that a renewal on the day is made under.
fn begun_last(day: Day, span: (Day, Day), other: Option<(Day, Day)>) -> Option<(Day, Day)>
    ensures { result ≡ renewals.begun_last day span other }
{
    let begun = !day.is_before(&span.0);
    match other {
        None => { if begun { Some(span) } else { None } }
        Some(other) => {
            if begun && other.0.is_before(&span.0) {
                Some(span)
            } else {
                Some(other)
            }
        }
    }
}

// Of the spans that began by the day the one that began last, and of equals the last one.
fn authority_on(day: Day, spans: &[(Day, Day)]) -> Option<(Day, Day)>
    ensures { result ≡ renewals.authority_on day spans.now }
{
    let mut best = None;
    let mut at = spans.len();
    while 0 < at {
        at -= 1;
        best = begun_last(day, spans[at], best);
    }
    best
}

// The numbers of these days.
fn day_numbers(alloc: Global, days: &[Day]) -> Result<BTreeSet<u32>, NoMemory>
    ensures { IfOk result (λ set. HasDays set days.now) }
{
    let mut numbers = BTreeSet::new(alloc);
    for day in days {
        if numbers.insert(day.number()).is_err() {
            return Err(NoMemory);
        }
    }
    Ok(numbers)
}

// What a renewal on the day gives.
fn renewed_on(need: &Need, closed: &BTreeSet<u32>, day: Day) -> Option<(Day, Day)>
    requires { HasDays closed.now need.now.closed }
    ensures { result ≡ renewals.renewed_on need.now day }
{
    if closed.contains(&day.number()) {
        return None;
    }
    let (_, last) = authority_on(day, need.authorities.as_slice())?;
    if last.is_before(&day) {
        return None;
    }
    validity(day, need.days, last, need.minimum)
}

// ---- the best renewal so far

// The first day that is needed and isn't covered by what the holder has.
fn bare_from(need: &Need) -> u32
    ensures { result ≡ words.bare_from need.now.first need.now.have }
{
    let first = need.first.number();
    match need.have {
        Some(have) => first.max(have.number() + 1),
        None => first,
    }
}

// Whether a renewal on the day may be the next one, where nothing is covered from `next` on.
fn is_offered(live: u32, next: u32, day: Day) -> bool
    ensures { result ≡ words.is_offered live next day }
{
    1 < live || (live == 1 && day.number() == next)
}

// Of two renewals the one with the later last day, and of equals the second.
fn later(best: Option<(Day, Day)>, renewal: (Day, Day)) -> (Day, Day)
    ensures { Some result ≡ words.later best renewal }
{
    match best {
        Some(best) if renewal.1.is_before(&best.1) => best,
        _ => renewal,
    }
}

// The best renewal of the days up to this one.
fn best_by(
    need: &Need,
    closed: &BTreeSet<u32>,
    next: u32,
    best: Option<(Day, Day)>,
    day: Day,
) -> Option<(Day, Day)>
    requires { HasDays closed.now need.now.closed }
    ensures { result ≡ words.best_by need.now next best day }
{
    if !is_offered(need.live, next, day) {
        return best;
    }
    match renewed_on(need, closed, day) {
        Some(renewal) => Some(later(best, renewal)),
        None => best,
    }
}

// The best renewal, where it ends on that day or later.
fn reaching(best: &Option<(Day, Day)>, next: u32) -> Option<(Day, Day)>
    ensures { result ≡ words.reaching best.now next }
{
    match best {
        Some(best) if next <= best.1.number() => Some(*best),
        _ => None,
    }
}

// The number of the day after the last one of a renewal.
fn day_after(renewal: &(Day, Day)) -> u32
    ensures { result ≡ renewal.now.1 + 1 }
{
    renewal.1.number() + 1
}

// ---- the plan

/// Plans the fewest renewals that leave no day of the need without a certificate.
///
/// The plan is empty where none is needed. Each renewal ends as late as one can that leaves no day uncovered before it,
/// and of the days that give this it stands on the latest. Where no plan covers the last day, the answer is the first
/// day that none covers. The time grows as the days times the authority's certificates.
///
/// # Errors
///
/// Want of memory.
pub fn plan(alloc: Global, need: &Need) -> Result<Planned, NoMemory>
    ensures { IfOk result (IsAnswer need.now) }
{
    let closed = day_numbers(alloc, need.closed.as_slice())?;
    let mut planned = RenewalList::new(alloc);
    let mut next = bare_from(need);
    let mut best = None;
    for number in need.first.number()..need.last.number() + 1 {
        let day = Day::from_number(number).unwrap();
        best = best_by(need, &closed, next, best, day);
        if number == next {
            let Some(renewal) = reaching(&best, next) else {
                return Ok(Planned::Uncovered(day));
            };
            next = day_after(&renewal);
            planned.push(renewal)?;
        }
    }
    Ok(Planned::Plan(planned))
}
