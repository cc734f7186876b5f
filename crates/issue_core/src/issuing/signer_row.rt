// The own row that signs.
ghost use Rattle.std.specs.Prelude.{◌≡◌, IfOk};
ghost use Rattle.std.specs.Option.{option_copied};
ghost use Rattle.issue_core.specs.Issuing.Rules.{signer_of, signers, newest};
ghost use Rattle.issue_core.specs.Issuing.Looks.{signer_at, newest_with, effective_of, is_later};

use eac_base::NoMemory;
use holder_reference::Reference;
use keeper::{OwnPart, Part, Row, Settled};
use signature_provider::Key;
use std::alloc::Global;

/// A settled own row: the key to sign with, and the certificate to sign under.
#[derive(Debug, Drop)]
pub struct Signer {
    pub reference: Reference,
    pub key: Key,
    pub settled: Settled,
}

fn signer_of(row: Row) -> Option<Signer>
    ensures { result ≡ signer_of row.reference row.part }
{
    let Row {
        desk: _,
        reference,
        part,
    } = row;
    let Part::Own(own) = part else {
        return None;
    };
    let OwnPart {
        authority: _,
        request: _,
        key,
        settled,
    } = own;
    match settled {
        Some(settled) => Some(Signer {
            reference,
            key,
            settled,
        }),
        None => None,
    }
}

/// The row that was found, where it is a settled own one.
pub fn signer_at(found: Option<Row>) -> Option<Signer>
    ensures { result ≡ signer_at found }
{
    match found {
        Some(row) => signer_of(row),
        None => None,
    }
}

// The number of the day from which a settled own row's certificate is effective.
fn effective(row: &Row) -> Option<u32>
    ensures { result ≡ effective_of (signer_of row.now.reference row.now.part) }
{
    let Part::Own(own) = &row.part else {
        return None;
    };
    match &own.settled {
        Some(settled) => Some(settled.from.number()),
        None => None,
    }
}

fn is_later(from: Option<u32>, other: Option<u32>) -> bool
    ensures { result ≡ is_later from other }
{
    match from {
        None => false,
        Some(from) => match other {
            None => true,
            Some(other) => other < from,
        },
    }
}

// The row, where it is settled and newer than the one that follows.
fn newer_row<'a>(row: &'a Row, other: Option<&'a Row>) -> Option<&'a Row>
    ensures { signer_at (option_copied result) ≡ newest_with (signer_of row.now.reference row.now.part) (signer_at
        (option_copied other.entry)) }
{
    let Some(best) = other else {
        return Some(row);
    };
    if is_later(effective(row), effective(best)) {
        Some(row)
    } else {
        Some(best)
    }
}

// The newest settled own row: of those with the greatest effective date the last.
fn newest_row(rows: &[Row]) -> Option<&Row>
    ensures { signer_at (option_copied result) ≡ newest (signers rows.now) }
{
    let mut best = None;
    let mut at = rows.len();
    while 0 < at {
        at -= 1;
        best = newer_row(&rows[at], best);
    }
    best
}

/// The newest settled own row, copied.
pub fn newest_signer(alloc: Global, rows: &[Row]) -> Result<Option<Signer>, NoMemory>
    ensures { IfOk result (λ o. o ≡ newest (signers rows.now)) }
{
    match newest_row(rows) {
        Some(row) => Ok(signer_of(row.copy(alloc)?)),
        None => Ok(None),
    }
}
