// The list that a desk hands out, by its kind.
ghost use Rattle.std.specs.Prelude.{◌≡◌, IfOk, IsTrue};
ghost use Rattle.eac_base.specs.Telling.{Told};
ghost use Rattle.holder_core.specs.Faults.{KeeperCaused};
ghost use Rattle.eac_net.specs.Parties.{is_issuer, is_party_of};
ghost use Rattle.eac_net.specs.Pushing.{list_due, ListAsked};

use holder_core::{CertList, HolderFault};
use keeper::Keeper;
use policy_limits::{PartyKind, Setup};
use std::alloc::Global;

/// The certificates that the desk of this number hands out. It changes no row.
pub fn desk_list<B: Keeper>(
    alloc: Global,
    setup: &Setup,
    desk: u32,
    keeper: &mut B,
) -> Result<CertList, HolderFault>
    requires { IsTrue (is_party_of is_issuer setup.now desk) }
    ensures told { Told (B.rows keeper.old) (B.rows keeper.new) (λ before after. (after ≡ before) × IfOk result (λ list.
        list ≡ list_due setup.now desk before)) }
    ensures asked { IfOk result (ListAsked setup.now desk) }
    ensures cause { KeeperCaused (B.faults keeper.old) (B.faults keeper.new) result }
{
    let Some(party) = setup.party(desk) else {
        unreachable!();
    };
    match party.kind {
        PartyKind::Cvca { .. } => cvca_desk::list(alloc, desk, keeper),
        PartyKind::Dv => dv_desk::list(alloc, desk, keeper),
        PartyKind::Terminal => unreachable!(),
    }
}
