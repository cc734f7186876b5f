// The newest of a party's rows that have a certificate.
ghost use Rattle.std.specs.Prelude.{◌≡◌, IfSome, IsSome};
ghost use Rattle.std.specs.Option.{option_copied};
ghost use Rattle.holder_core.specs.Signers.{wanted_in, wanted_at, newest_with, newest_wanted, effective_of, is_fit as fits};
ghost use Rattle.holder_core.specs.Signers as words;

use crate::key_form::has_legal_form;
use holder_reference::{Holder, Reference};
use keeper::{CaPart, OwnPart, Part, Row, Settled};
use signature_provider::Key;

/// Which rows are looked for: each has its certificate.
#[derive(Clone, Copy, Debug, PartialEq, Eq)]
pub enum Wanted {
    /// Own rows whose certificate was asked from this authority.
    AskedFrom(Holder),
    /// Own rows with a key that a new one can be made like.
    LikeNew,
    /// Certificates of this authority, issued by that root, with a key that a new one can be made like.
    Authority { holder: Holder, root: Holder },
}

fn own_effective(own: &OwnPart) -> Option<u32>
    ensures { result ≡ words.own_effective own.now }
{
    match &own.settled {
        Some(settled) => Some(settled.from.number()),
        None => None,
    }
}

fn is_fit(reference: &Reference, ca: &CaPart, holder: &Holder, root: &Holder) -> bool
    ensures { result ≡ words.ca_fits holder.now root.now reference.now ca.now }
{
    has_legal_form(&ca.key) && reference.holder().is(holder) && ca.settled.issuer.holder().is(root)
}

// From when the row's certificate is effective, where the row is wanted.
fn effective(row: &Row, wanted: &Wanted) -> Option<u32>
    ensures { result ≡ effective_of (wanted_in wanted.now row.now) }
{
    match (wanted, &row.part) {
        (Wanted::AskedFrom(authority), Part::Own(own)) if own.authority.is(authority) => {
            own_effective(own)
        }
        (Wanted::LikeNew, Part::Own(own)) if has_legal_form(&own.key) => own_effective(own),
        (Wanted::Authority { holder, root }, Part::Ca(ca))
            if is_fit(&row.reference, ca, holder, root) => { Some(ca.settled.from.number()) }
        _ => None,
    }
}

fn is_later(from: Option<u32>, other: Option<u32>) -> bool
    ensures { result ≡ words.is_later from other }
{
    match from {
        None => false,
        Some(from) => match other {
            None => true,
            Some(other) => other < from,
        },
    }
}

// The row, where it is wanted and newer than the one that follows.
fn newer_row<'a>(row: &'a Row, other: Option<&'a Row>, wanted: &Wanted) -> Option<&'a Row>
    requires { IfSome (option_copied other) (λ r. IsSome (wanted_in wanted.now r)) }
    ensures newest { wanted_at wanted.now (option_copied result) ≡ newest_with (wanted_in wanted.now row.now) (wanted_at
        wanted.now (option_copied other.entry)) }
    ensures wanted { IfSome (option_copied result) (λ r. IsSome (wanted_in wanted.now r)) }
{
    let later = match other {
        Some(best) => is_later(effective(row, wanted), effective(best, wanted)),
        None => effective(row, wanted).is_some(),
    };
    if later { Some(row) } else { other }
}

/// The newest row that is wanted: of those with the greatest effective date the last.
pub fn newest_row<'a>(rows: &'a [Row], wanted: &Wanted) -> Option<&'a Row>
    ensures newest { wanted_at wanted.now (option_copied result) ≡ newest_wanted wanted.now rows.now }
    ensures wanted { IfSome (option_copied result) (λ row. IsSome (wanted_in wanted.now row)) }
{
    let mut best = None;
    let mut at = rows.len();
    while 0 < at {
        at -= 1;
        best = newer_row(&rows[at], best, wanted);
    }
    best
}
