// What the rows of a party say of a reference, each look at the keeper by itself.
ghost use Rattle.std.specs.Prelude.{◌≡◌, IfOk, IfSome};
ghost use Rattle.eac_base.specs.Telling.{Told};
ghost use Rattle.keeper.specs.Rows.{IsStorableKey};
ghost use Rattle.holder_core.specs.Faults.{KeeperCaused};
ghost use Rattle.holder_core.specs.OwnRows.{own_in, own_at, ca_in, ca_at, IsOwnAsked, IsCaAsked};

use crate::HolderFault;
use crate::fault::fault_of;
use holder_reference::Reference;
use keeper::{CaPart, Keeper, OwnPart, Part, Row, Table};
use std::alloc::Global;

fn own_of(found: Option<Row>) -> Option<OwnPart>
    ensures { result ≡ own_in found }
{
    match found {
        Some(row) => {
            let Row {
                desk: _,
                reference: _,
                part,
            } = row;
            let Part::Own(own) = part else {
                return None;
            };
            Some(own)
        }
        None => None,
    }
}

fn ca_of(found: Option<Row>) -> Option<CaPart>
    ensures { result ≡ ca_in found }
{
    match found {
        Some(row) => {
            let Row {
                desk: _,
                reference: _,
                part,
            } = row;
            let Part::Ca(ca) = part else {
                return None;
            };
            Some(ca)
        }
        None => None,
    }
}

/// The party's own key of this reference.
pub fn look_own<B: Keeper>(
    alloc: Global,
    party: u32,
    reference: &Reference,
    keeper: &mut B,
) -> Result<Option<OwnPart>, HolderFault>
    ensures told { Told (B.rows keeper.old) (B.rows keeper.new) (λ before after. (after ≡ before) × IfOk result (λ o. o
        ≡ own_at party reference.now before)) }
    ensures asked { IfOk result (IsOwnAsked party reference.now) }
    ensures cause { KeeperCaused (B.faults keeper.old) (B.faults keeper.new) result }
{
    match keeper.find(alloc, Table::Own, party, reference) {
        Ok(found) => Ok(own_of(found)),
        Err(refusal) => Err(fault_of(refusal)),
    }
}

/// The authority that the party knows by this reference.
pub fn look_ca<B: Keeper>(
    alloc: Global,
    party: u32,
    reference: &Reference,
    keeper: &mut B,
) -> Result<Option<CaPart>, HolderFault>
    ensures told { Told (B.rows keeper.old) (B.rows keeper.new) (λ before after. (after ≡ before) × IfOk result (λ o. o
        ≡ ca_at party reference.now before)) }
    ensures asked { IfOk result (IsCaAsked party reference.now) }
    ensures storable { IfOk result (λ o. IfSome o (λ ca. IsStorableKey ca.key)) }
    ensures cause { KeeperCaused (B.faults keeper.old) (B.faults keeper.new) result }
{
    match keeper.find(alloc, Table::Ca, party, reference) {
        Ok(found) => Ok(ca_of(found)),
        Err(refusal) => Err(fault_of(refusal)),
    }
}
