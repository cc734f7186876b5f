// Requests for certificates of new keys.
ghost use Rattle.std.specs.Prelude.{◌≡◌, ◌≤◌, ℕ, List, None, Some, IfOk, IfSome, IsSome, OnErr, length};
ghost use Rattle.std.specs.Option.{option_copied};
ghost use Rattle.eac_base.specs.Telling.{Told};
ghost use Rattle.keeper.specs.Rows.{IsStorableKey};
ghost use Rattle.holder_core.specs.Faults.{HolderCause, KeeperCaused};
ghost use Rattle.holder_core.specs.Requesting.{home_signer, Chooses, MissesChosen, RequestAsked, Requests, MissesOuter, Enters, SignsBy, SignsAsked};
ghost use Rattle.holder_core.specs.OwnRows.{own_rows, ca_rows};
ghost use Rattle.holder_core.specs.Requesting as words;
ghost use Rattle.holder_core.specs.Signers.{own_signer, wanted_in, missing_of};
ghost use Rattle.holder_core.specs.declared.newest.Wanted.TheVariants as wanted;
ghost use Rattle.holder_core.specs.Signing.{ProviderCaused, SignsNoBody, StaysTrue};

use crate::adding::{Added, add_row};
use crate::composing::{Composed, compose};
use crate::listing::list_rows;
use crate::newest::{Wanted, newest_row};
use crate::numbers::{MOST_KEYS, numbered};
use crate::{HolderFault, Made};
use eac_base::Octets;
use holder_reference::{Holder, Reference};
use keeper::{Keeper, OwnPart, Part, Row, Table};
use signature_provider::{Key, SignatureProvider};
use std::alloc::Global;

// Who asks, whom, and for the certificates of which root.
#[derive(Clone, Copy)]
struct Call<'a> {
    party: u32,
    holder: &'a Holder,
    authority: &'a Holder,
    root: &'a Holder,
}

// What the rows make of a call.
#[derive(Debug, Drop)]
enum Choice {
    /// This is the answer, and nothing is made.
    Refused(Made),
    /// This request was made under this reference.
    Composed(Reference, Composed),
}

// The own row that signs the outer signature: the newest settled one at this authority, else the home row.
fn outer_row<'a>(own: &'a [Row], authority: &Holder, home: Option<&'a Row>) -> Option<&'a Row>
    requires { IfSome (option_copied home) (λ row. IsSome (own_signer row)) }
    ensures signer { home_signer (option_copied result) ≡ words.outer_signer authority.now (home_signer
        (option_copied home.entry)) own.now }
    ensures own { IfSome (option_copied result) (λ row. IsSome (own_signer row)) }
{
    match newest_row(own, &Wanted::AskedFrom(*authority)) {
        Some(row) => Some(row),
        None => home,
    }
}

// Which authorities are fit for a call.
fn fit(call: &Call) -> Wanted
    ensures { result ≡ wanted.Authority call.now.authority.now call.now.root.now }
{
    Wanted::Authority {
        holder: *call.authority,
        root: *call.root,
    }
}

// The request for a key like that of this authority, which is fit.
fn compose_below<P: SignatureProvider>(
    alloc: Global,
    fit: &Wanted,
    reference: Reference,
    above: &Row,
    outer: Option<&Row>,
    provider: &mut P,
) -> Result<Composed, HolderFault>
    requires fit { (authority : List ℕ) × (root : List ℕ) × (fit.now ≡ wanted.Authority authority root) }
    requires above { IsSome (wanted_in fit.now above.now) }
    requires own { IfSome (option_copied outer) (λ row. IsSome (own_signer row)) }
    ensures made { IfOk result (words.ComposedBelow (P.says provider.new) (P.holds provider.old)
        (P.holds provider.new) (P.signed provider.old, P.signed provider.new) reference (home_signer
        (option_copied outer.entry)) (wanted_in fit.now above.now)) }
    ensures broken { OnErr result (words.MayBeginBelow (P.says provider.new) (P.holds provider.old)
        (P.holds provider.new) (P.signed provider.old, P.signed provider.new) reference (home_signer
        (option_copied outer.entry)) (wanted_in fit.now above.now)) }
    ensures signed { SignsNoBody (P.signed provider.old, P.signed provider.new) }
    ensures provider { StaysTrue (P.says provider.old) (P.says provider.new) (P.holds provider.old)
        (P.holds provider.new) (P.signed provider.old) (P.signed provider.new) }
    ensures cause { ProviderCaused (λ r. missing_of (P.holds provider.old) (home_signer (option_copied outer.entry)) ≡
        Some r) (P.faults provider.old) (P.faults provider.new) result }
{
    let Part::Ca(ca) = &above.part else {
        unreachable!();
    };
    compose(alloc, reference, above.reference, &ca.key, outer, provider)
}

// The answer by the rows, or the request that is made by them.
fn choose<P: SignatureProvider>(
    alloc: Global,
    call: &Call,
    own: &[Row],
    cas: &[Row],
    home: Option<&Row>,
    provider: &mut P,
) -> Result<Choice, HolderFault>
    requires { IfSome (option_copied home) (λ row. IsSome (own_signer row)) }
    ensures chosen { IfOk result (Chooses (P.says provider.new) (P.holds provider.old) (P.holds provider.new)
        (P.signed provider.old, P.signed provider.new) call.now.holder.now call.now.authority.now call.now.root.now
        (home_signer (option_copied home.entry)) own.now cas.now) }
    ensures signed { SignsNoBody (P.signed provider.old, P.signed provider.new) }
    ensures provider { StaysTrue (P.says provider.old) (P.says provider.new) (P.holds provider.old)
        (P.holds provider.new) (P.signed provider.old) (P.signed provider.new) }
    ensures cause { ProviderCaused (MissesChosen (P.holds provider.old) call.now.authority.now call.now.root.now
        (home_signer (option_copied home.entry)) own.now cas.now) (P.faults provider.old) (P.faults provider.new)
        result }
    ensures broken { OnErr result (words.IsBroken (P.says provider.new) (P.holds provider.old) (P.holds provider.new)
        (P.signed provider.old, P.signed provider.new) call.now.holder.now call.now.authority.now call.now.root.now
        (home_signer (option_copied home.entry)) own.now cas.now) }
{
    if MOST_KEYS <= own.len() {
        return Ok(Choice::Refused(Made::Exhausted));
    }
    let fit = fit(call);
    let Some(above) = newest_row(cas, &fit) else {
        return Ok(Choice::Refused(Made::NoAuthority));
    };
    let reference = numbered(call.holder, own.len() as u32 + 1);
    let outer = outer_row(own, call.authority, home);
    let composed = compose_below(alloc, &fit, reference, above, outer, provider)?;
    Ok(Choice::Composed(reference, composed))
}

// The own row that waits for the certificate.
fn pending_row(call: &Call, reference: Reference, request: Octets, key: Key) -> Row
    ensures { result ≡ words.pending_row call.now.party reference call.now.authority.now request key }
{
    Row {
        desk: call.party,
        reference,
        part: Part::Own(OwnPart {
            authority: *call.authority,
            request,
            key,
            settled: None,
        }),
    }
}

// What is answered to an adding: where the row is there or there is no room, no number is left.
fn answer_added(added: Added, reference: Reference, bytes: Octets) -> Made
    ensures { result ≡ words.added_answer reference bytes added }
{
    match added {
        Added::New => Made::Request { reference, bytes },
        Added::There(_) | Added::Full => Made::Exhausted,
    }
}

// Adds the own row of a request that was made.
fn enter<B: Keeper>(
    alloc: Global,
    call: &Call,
    reference: Reference,
    composed: Composed,
    keeper: &mut B,
) -> Result<Made, HolderFault>
    requires key { IsStorableKey composed.key }
    requires size { length composed.bytes ≤ 2304 }
    ensures told { Told (B.rows keeper.old) (B.rows keeper.new) (λ before after. Enters (words.pending_row
        call.now.party reference call.now.authority.now composed.bytes composed.key) composed.bytes before after
        result) }
    ensures answered { IfOk result (words.EnteredAs reference composed.bytes) }
    ensures cause { KeeperCaused (B.faults keeper.old) (B.faults keeper.new) result }
{
    let Composed { bytes, key } = composed;
    let Ok(kept) = Octets::from_slice(alloc, bytes.as_slice()) else {
        return Err(HolderFault::NoMemory);
    };
    let row = pending_row(call, reference, kept, key);
    let added = add_row(alloc, &row, keeper)?;
    Ok(answer_added(added, reference, bytes))
}

/// Makes a request of this holder for a certificate of a new key, and adds the own row that waits for it.
///
/// In this order: a party with 99,999 own rows is `Exhausted`; one that knows no certificate of the authority by that
/// root, with a key that a new one can be made like, has `NoAuthority`. Else the newest such certificate gives the
/// authority reference and the form of the new key, which is held from then on and unlike each key held before. Its
/// reference has the count of own rows and one as its number. The inner signature is by the new key. The outer one is
/// by the newest own row at the authority that has its certificate, else by the home row, an own row of the holder's
/// home authority that has one; without either there is no outer part. The row is added last; where the keeper says
/// that it is there, or the table full, the party is `Exhausted`.
///
/// # Errors
///
/// `KeeperFault` only where the keeper's count of faults rose, and then the row may stand; `ProviderFault` only where
/// the provider's rose; `NoKey` only where the provider didn't hold the key to sign the outer signature with, which
/// it names by its row; `NoMemory`. But for `KeeperFault` no row has changed.
pub fn make_request<B: Keeper, P: SignatureProvider>(
    alloc: Global,
    party: u32,
    holder: &Holder,
    authority: &Holder,
    root: &Holder,
    home: Option<&Row>,
    keeper: &mut B,
    provider: &mut P,
) -> Result<Made, HolderFault>
    requires { IfSome (option_copied home) (λ row. IsSome (own_signer row)) }
    // Where the rows are told after the call: the answer that is due by them, and the row that was added.
    ensures requests { Told (B.rows keeper.old) (B.rows keeper.new) (λ before after. Requests (P.says provider.new)
        (P.holds provider.old) (P.holds provider.new) (P.signed provider.old, P.signed provider.new) party holder.now
        authority.now root.now (home_signer (option_copied home.entry)) before after result) }
    // What was signed by them, and whether a key was made, whatever came of it.
    ensures signs { Told (B.rows keeper.old) (B.rows keeper.new) (λ before after. SignsBy (P.says provider.new)
        (P.holds provider.old) (P.holds provider.new) (P.signed provider.old, P.signed provider.new) party holder.now
        authority.now root.now (home_signer (option_copied home.entry)) (own_rows party before)
        (ca_rows party before)) }
    // Whether they are told or not, the answer is due by rows as they were asked for.
    ensures answered { IfOk result (RequestAsked (P.says provider.new) (P.holds provider.old) (P.holds provider.new)
        (P.signed provider.old, P.signed provider.new) party holder.now authority.now root.now (home_signer
        (option_copied home.entry))) }
    ensures signs_asked { SignsAsked (P.says provider.new) (P.holds provider.old) (P.holds provider.new)
        (P.signed provider.old, P.signed provider.new) party holder.now authority.now root.now (home_signer
        (option_copied home.entry)) }
    ensures cause { HolderCause (MissesOuter (P.holds provider.old) party authority.now root.now (home_signer
        (option_copied home.entry))) (B.faults keeper.old, B.faults keeper.new)
        (P.faults provider.old, P.faults provider.new) result }
    // No certificate's body is signed, whatever comes of it.
    ensures signed { SignsNoBody (P.signed provider.old, P.signed provider.new) }
    ensures provider { StaysTrue (P.says provider.old) (P.says provider.new) (P.holds provider.old)
        (P.holds provider.new) (P.signed provider.old) (P.signed provider.new) }
{
    let call = Call {
        party,
        holder,
        authority,
        root,
    };
    let own = list_rows(alloc, Table::Own, party, keeper)?;
    let cas = list_rows(alloc, Table::Ca, party, keeper)?;
    match choose(alloc, &call, own.as_slice(), cas.as_slice(), home, provider)? {
        Choice::Refused(answer) => Ok(answer),
        Choice::Composed(reference, composed) => {
            enter(alloc, &call, reference, composed, keeper)
        }
    }
}
