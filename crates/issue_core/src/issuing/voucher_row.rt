// The row that vouches for an outer signature.
ghost use Rattle.std.specs.Prelude.{◌≡◌};
ghost use Rattle.issue_core.specs.Issuing.Rules.{is_home};
ghost use Rattle.issue_core.specs.Issuing.Looks.{row_voucher, issued_for, ca_in};

use cv_dates::Day;
use holder_reference::{Holder, Reference};
use keeper::{CaPart, IssuedPart, Part, Row};
use policy_limits::First;
use signature_provider::Key;

/// A row that vouches: whose key signed, and until when its certificate is valid.
#[derive(Debug, Drop)]
pub struct Voucher {
    pub key: Key,
    pub until: Day,
}

fn issued_voucher(row: Row) -> Option<Voucher>
    ensures { result ≡ row_voucher row.part }
{
    let Row {
        desk: _,
        reference: _,
        part,
    } = row;
    let Part::Issued(issued) = part else {
        return None;
    };
    let IssuedPart {
        request: _,
        key,
        settled,
    } = issued;
    Some(Voucher {
        key,
        until: settled.until,
    })
}

/// An issued row that was found vouches for its own holder.
pub fn issued_voucher_for(holder: &Holder, found: Option<Row>) -> Option<Voucher>
    ensures { result ≡ issued_for holder.now found }
{
    let Some(row) = found else {
        return None;
    };
    if row.reference.holder().is(holder) {
        issued_voucher(row)
    } else {
        None
    }
}

/// The authority's row that was found.
pub fn ca_voucher(found: Option<Row>) -> Option<Voucher>
    ensures { result ≡ ca_in found }
{
    let Some(row) = found else {
        return None;
    };
    let Row {
        desk: _,
        reference: _,
        part,
    } = row;
    let Part::Ca(ca) = part else {
        return None;
    };
    let CaPart { key, settled } = ca;
    Some(Voucher {
        key,
        until: settled.until,
    })
}

/// Whether the registration names this reference as the holder's home.
pub fn is_home_of(first: &First, reference: &Reference) -> bool
    ensures { result ≡ is_home first.now reference.now }
{
    match first {
        First::Home(home) => home.is(reference),
        First::Bare => false,
    }
}
