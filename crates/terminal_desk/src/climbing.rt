// Walks from an own certificate up to one that a car has issued.
ghost use Rattle.std.specs.Prelude.{◌≡◌, IfSome, IfNone, Some, length, option_map};
ghost use Rattle.terminal_desk.specs.Chain as said;
ghost use Rattle.terminal_desk.specs.Chain.{named, issuer_of};
ghost use Rattle.terminal_desk.specs.Walks.{FindsFirst, certificate_at, AreLost, StandsUnder};

use crate::met::Met;
use crate::places::Places;
use chat_rights::Role;
use eac_base::is_same;
use holder_reference::Reference;
use keeper::{Part, Row, Settled};

/// An authority's certificate, and the place of its row.
#[derive(Clone, Copy)]
pub(crate) struct Authority<'a> {
    pub(crate) place: usize,
    pub(crate) settled: &'a Settled,
}

/// The authority of this reference: of several the first.
pub(crate) fn find_authority<'a>(
    cas: &'a [Row],
    places: &Places,
    reference: &Reference,
) -> Option<Authority<'a>>
    requires { FindsFirst cas.now places.now.places cas.now }
    ensures named { option_map (λ a. a.settled.now) result ≡ named cas.now reference.now }
    ensures placed { IfSome result (λ a. certificate_at cas.now a.place ≡ Some a.settled.now) }
{
    let place = places.at(reference)?;
    let row = cas.get(place)?;
    match &row.part {
        Part::Ca(authority) => Some(Authority {
            place,
            settled: &authority.settled,
        }),
        _ => None,
    }
}

fn is_verifier(role: Role) -> bool
    ensures { result ≡ said.is_verifier role }
{
    matches!(role, Role::Domestic | Role::Foreign)
}

fn is_root(role: Role) -> bool
    ensures { result ≡ said.is_root role }
{
    matches!(role, Role::Cvca)
}

// The verifier that issued an own certificate.
fn verifier_above<'a>(cas: &'a [Row], places: &Places, own: &Settled) -> Option<Authority<'a>>
    requires { FindsFirst cas.now places.now.places cas.now }
    ensures found { option_map (λ a. a.settled.now) result ≡ issuer_of said.is_verifier cas.now own.now }
    ensures placed { IfSome result (λ a. certificate_at cas.now a.place ≡ Some a.settled.now) }
{
    let issuer = find_authority(cas, places, &own.issuer)?;
    if is_verifier(issuer.settled.template.role) {
        Some(issuer)
    } else {
        None
    }
}

// The root that issued an authority's certificate.
fn root_above<'a>(cas: &'a [Row], places: &Places, below: &Settled) -> Option<Authority<'a>>
    requires { FindsFirst cas.now places.now.places cas.now }
    ensures found { option_map (λ a. a.settled.now) result ≡ issuer_of said.is_root cas.now below.now }
    ensures placed { IfSome result (λ a. certificate_at cas.now a.place ≡ Some a.settled.now) }
{
    let issuer = find_authority(cas, places, &below.issuer)?;
    if is_root(issuer.settled.template.role) {
        Some(issuer)
    } else {
        None
    }
}

fn is_trusted(cars: &[Reference], reference: &Reference) -> bool
    ensures { result ≡ said.is_trusted cars.now reference.now }
{
    cars.iter()
        .any(|car| is_same(car.as_slice(), reference.as_slice()))
}

/// How many authorities stand above an own certificate, where it has a chain.
///
/// A walk ends at the first authority that this walk or one since the marks were taken away has met: where one of those
/// led nowhere, this one doesn't either, and a circle doesn't.
pub(crate) fn steps_up(
    cars: &[Reference],
    cas: &[Row],
    places: &Places,
    met: &mut Met,
    own: &Settled,
) -> Option<usize>
    requires first { FindsFirst cas.now places.now.places cas.now }
    requires lost { AreLost cars.now cas.now met.old }
    requires all { length met.old ≡ length cas.now }
    ensures found { StandsUnder cars.now cas.now own.now result }
    ensures lost { IfNone result (AreLost cars.now cas.now met.new) }
    ensures all { length met.new ≡ length cas.now }
{
    let mut top = verifier_above(cas, places, own)?;
    let mut steps = 1;
    'walk: while met.enter(top.place) {
        if is_trusted(cars, &top.settled.issuer) {
            return Some(steps);
        }
        top = root_above(cas, places, top.settled)?;
        steps += 1;
    }
    None
}
