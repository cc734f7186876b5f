// The certificates that a country authority hands out.
ghost use Rattle.std.specs.Prelude.{◌≡◌, IfOk};
ghost use Rattle.eac_base.specs.Telling.{Told};
ghost use Rattle.holder_core.specs.Faults.{KeeperCaused};
ghost use Rattle.desk_core.specs.Lists.{authority_list, AuthorityAsked};

use desk_core::hand_out;
use holder_core::{CertList, HolderFault};
use keeper::Keeper;
use std::alloc::Global;

/// The authority's own certificates in the order of adding: the last 64.
///
/// It changes no row. `KeeperFault` comes only where the keeper's count of faults rose, and `NoMemory`.
pub fn list<B: Keeper>(alloc: Global, desk: u32, keeper: &mut B) -> Result<CertList, HolderFault>
    ensures told { Told (B.rows keeper.old) (B.rows keeper.new)
        (λ before after. (after ≡ before) × IfOk result (λ list. list ≡ authority_list desk before)) }
    ensures asked { IfOk result (AuthorityAsked desk) }
    ensures cause { KeeperCaused (B.faults keeper.old) (B.faults keeper.new) result }
{
    hand_out(alloc, desk, keeper)
}
