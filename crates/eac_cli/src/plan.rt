// What `plan` prints: the renewals, or the first day that no plan covers.
ghost use Rattle.std.specs.Prelude.{◌≡◌, ◌≢◌, ◌++◌, flat_map, IfOk, IfErr, OnOk, Err};
ghost use Rattle.renewal_plan.specs.NeedText.{read_need};
ghost use Rattle.renewal_plan.specs.declared.need_refusal.NeedRefusal.TheVariants as refusals;
ghost use Rattle.renewal_plan.specs.declared.planning.Planned.TheVariants as planned;
ghost use Rattle.eac_cli.specs.PlanText.{renewal_line, planned_text, IsPlanOf};

use cv_dates::{Day, day_text};
use eac_base::{NoMemory, Octets};
use plain_text::decimal::push_number;
use renewal_plan::{NeedRefusal, Planned, RenewalList, plan, read_need};
use std::alloc::Global;

fn push_renewal(out: &mut Octets, renewal: &(Day, Day)) -> Result<(), NoMemory>
    ensures { OnOk result (out.new ≡ out.old ++ renewal_line renewal.now) }
{
    out.push_all(&day_text(renewal.0))?;
    out.push_all(b" ")?;
    out.push_all(&day_text(renewal.1))?;
    out.push_all(b"\n")
}

fn push_renewals(out: &mut Octets, renewals: &[(Day, Day)]) -> Result<(), NoMemory>
    ensures { OnOk result (out.new ≡ out.old ++ flat_map renewal_line renewals.now) }
{
    for renewal in renewals {
        push_renewal(out, renewal)?;
    }
    Ok(())
}

fn renewals_text(alloc: Global, renewals: &RenewalList) -> Result<Octets, NoMemory>
    ensures { IfOk result (λ text. text ≡ planned_text (planned.Plan renewals.now)) }
{
    let mut out = Octets::new(alloc);
    out.push_all(b"renewals ")?;
    push_number(alloc, &mut out, renewals.len() as u64)?;
    out.push_all(b"\n")?;
    push_renewals(&mut out, renewals.as_slice())?;
    Ok(out)
}

fn uncovered_text(alloc: Global, day: Day) -> Result<Octets, NoMemory>
    ensures { IfOk result (λ text. text ≡ planned_text (planned.Uncovered day)) }
{
    let mut out = Octets::new(alloc);
    out.push_all(b"uncovered ")?;
    out.push_all(&day_text(day))?;
    out.push_all(b"\n")?;
    Ok(out)
}

fn planned_text(alloc: Global, planned: &Planned) -> Result<Octets, NoMemory>
    ensures { IfOk result (λ text. text ≡ planned_text planned.now) }
{
    match planned {
        Planned::Plan(renewals) => renewals_text(alloc, renewals),
        Planned::Uncovered(day) => uncovered_text(alloc, *day),
    }
}

/// The text that is printed of the plan of these bytes.
///
/// # Errors
///
/// The first line that breaks a rule of needs, or want of memory.
pub fn plan_text(alloc: Global, bytes: &[u8]) -> Result<Octets, NeedRefusal>
    ensures told { IfOk result (λ text. IsPlanOf bytes.now text) }
    ensures refused { IfErr result (λ e. e ≢ refusals.NoMemory → read_need bytes.now ≡ Err e) }
{
    let need = read_need(alloc, bytes)?;
    let planned = plan(alloc, &need)?;
    let text = planned_text(alloc, &planned)?;
    Ok(text)
}
