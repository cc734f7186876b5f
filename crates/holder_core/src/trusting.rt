// A founding certificate that is carried by hand.
ghost use Rattle.std.specs.Prelude.{◌≡◌, IfOk, IfSome, IsSome};
ghost use Rattle.eac_base.specs.Telling.{Told};
ghost use Rattle.keeper.specs.Rows.{IsStorable};
ghost use Rattle.holder_core.specs.Faults.{KeeperCaused};
ghost use Rattle.holder_core.specs.Trusting.{carried, Trusts, TrustCause};
ghost use Rattle.holder_core.specs.Trusting as words;

use crate::adding::{Added, add_row};
use crate::{CaRule, HolderFault, TakenCa};
use eac_base::NoMemory;
use holder_reference::Reference;
use keeper::{CaPart, Keeper, Part, Row, copy_key};
use std::alloc::Global;

fn answer_trusted(added: Added, reference: Reference) -> TakenCa
    ensures { result ≡ words.trusted_answer reference added }
{
    match added {
        Added::New => TakenCa::Stored(reference),
        Added::There(_) => TakenCa::Held(reference),
        Added::Full => TakenCa::Refused(CaRule::Full),
    }
}

// The key and the certificate of an authority's own row, as a row of the party that trusts it.
fn trusted_row(alloc: Global, party: u32, row: &Row) -> Result<Row, NoMemory>
    requires carried { IsSome (carried row.now.part) }
    requires storable { IsStorable row.now }
    ensures row { IfOk result (λ r. IfSome (carried row.now.part) (λ ca. r ≡ words.trusted_row party row.now.reference
        ca)) }
    ensures storable { IfOk result IsStorable }
{
    let Part::Own(own) = &row.part else {
        unreachable!();
    };
    let Some(settled) = &own.settled else {
        unreachable!();
    };
    Ok(Row {
        desk: party,
        reference: row.reference,
        part: Part::Ca(CaPart {
            key: copy_key(alloc, &own.key)?,
            settled: settled.copy(alloc)?,
        }),
    })
}

/// Stores a founding certificate that is carried by hand, given as its authority's own row, which has its certificate.
///
/// A row of that reference that is there is `Held`, whatever it keeps. Then a party with 100,000 authorities has no
/// room: that is `Full`, the one refusal.
///
/// # Errors
///
/// `KeeperFault` only where the keeper's count of faults rose, and then the row may stand; `NoMemory`.
pub fn trust_ca<B: Keeper>(
    alloc: Global,
    party: u32,
    row: &Row,
    keeper: &mut B,
) -> Result<TakenCa, HolderFault>
    requires carried { IsSome (carried row.now.part) }
    requires storable { IsStorable row.now }
    // Where the rows are told after the call: the answer that is due by them, and the row that was added.
    ensures trusts { Told (B.rows keeper.old) (B.rows keeper.new) (λ before after. IfSome (carried row.now.part)
        (λ ca. Trusts party row.now.reference ca before after result)) }
    // Whether they are told or not, `Held` has a row of that reference, and `Full` is the keeper's word.
    ensures answered { IfOk result (TrustCause party row.now.reference) }
    ensures cause { KeeperCaused (B.faults keeper.old) (B.faults keeper.new) result }
{
    let Ok(trusted) = trusted_row(alloc, party, row) else {
        return Err(HolderFault::NoMemory);
    };
    let added = add_row(alloc, &trusted, keeper)?;
    Ok(answer_trusted(added, row.reference))
}
