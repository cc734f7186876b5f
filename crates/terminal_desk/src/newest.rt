// The newest own certificate that has a chain.
ghost use Rattle.std.specs.Prelude.{◌≡◌, ◌∷◌, IfOk, List, length};
ghost use Rattle.std.specs.List.{cons_option};
ghost use Rattle.std.specs.Option.{option_copied};
ghost use Rattle.keeper.specs.declared.rows.Settled as said;
ghost use Rattle.terminal_desk.specs.Chain.{own_certificate, own_certificates};
ghost use Rattle.terminal_desk.specs.Walks.{FindsFirst, AreLost, IsNewest, is_as_new};

use crate::climbing::steps_up;
use crate::met::Met;
use crate::places::Places;
use eac_base::NoMemory;
use holder_reference::Reference;
use keeper::{Part, Row, Settled};
use std::alloc::Global;

/// An own certificate, and how many authorities stand above it.
#[derive(Clone, Copy)]
pub(crate) struct Newest<'a> {
    pub(crate) own: &'a Settled,
    pub(crate) steps: usize,
}

fn own_certificate(row: &Row) -> Option<&Settled>
    ensures { option_copied result ≡ own_certificate row.now.part }
{
    match &row.part {
        Part::Own(own) => own.settled.as_ref(),
        _ => None,
    }
}

fn is_as_new(best: &Option<Newest>, own: &Settled) -> bool
    ensures { result ≡ is_as_new best.now own.now }
{
    match best {
        Some(best) => own.from.number() <= best.own.from.number(),
        None => false,
    }
}

// The better of an own certificate and the best of those after it.
fn newer<'a>(
    cars: &[Reference],
    cas: &[Row],
    places: &Places,
    met: &mut Met,
    own: &'a Settled,
    best: Option<Newest<'a>>,
) -> Option<Newest<'a>>
    requires first { FindsFirst cas.now places.now.places cas.now }
    requires lost { AreLost cars.now cas.now met.old }
    requires all { length met.old ≡ length cas.now }
    ensures newest { (after : List said.Settled) → IsNewest cars.now cas.now after best.entry
        → IsNewest cars.now cas.now (own.now ∷ after) result }
    ensures lost { AreLost cars.now cas.now met.new }
    ensures all { length met.new ≡ length cas.now }
{
    if is_as_new(&best, own) {
        return best;
    }
    match steps_up(cars, cas, places, met, own) {
        Some(steps) => {
            met.forget();
            Some(Newest { own, steps })
        }
        None => best,
    }
}

// The same of a row, which may wait for its certificate.
fn newer_row<'a>(
    cars: &[Reference],
    cas: &[Row],
    places: &Places,
    met: &mut Met,
    row: &'a Row,
    best: Option<Newest<'a>>,
) -> Option<Newest<'a>>
    requires first { FindsFirst cas.now places.now.places cas.now }
    requires lost { AreLost cars.now cas.now met.old }
    requires all { length met.old ≡ length cas.now }
    ensures newest { (after : List said.Settled) → IsNewest cars.now cas.now after best.entry
        → IsNewest cars.now cas.now (cons_option (own_certificate row.now.part) after) result }
    ensures lost { AreLost cars.now cas.now met.new }
    ensures all { length met.new ≡ length cas.now }
{
    match own_certificate(row) {
        Some(own) => newer(cars, cas, places, met, own, best),
        None => best,
    }
}

/// The newest own certificate that has a chain: among equals the one that was added last.
pub(crate) fn find_newest<'a>(
    alloc: Global,
    cars: &[Reference],
    own: &'a [Row],
    cas: &[Row],
    places: &Places,
) -> Result<Option<Newest<'a>>, NoMemory>
    requires { FindsFirst cas.now places.now.places cas.now }
    ensures { IfOk result (IsNewest cars.now cas.now (own_certificates own.now)) }
{
    let mut met = Met::new(alloc, cas.len())?;
    let mut best = None;
    let mut at = own.len();
    'rows: while 0 < at {
        at -= 1;
        best = newer_row(cars, cas, places, &mut met, &own[at], best);
    }
    Ok(best)
}
