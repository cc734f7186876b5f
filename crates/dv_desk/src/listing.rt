// The certificates that a document verifier hands out.
ghost use Rattle.std.specs.Prelude.{◌≡◌, IfOk};
ghost use Rattle.eac_base.specs.Telling.{Told};
ghost use Rattle.holder_core.specs.Faults.{KeeperCaused};
ghost use Rattle.desk_core.specs.Lists.{verifier_list, VerifierAsked};

use desk_core::hand_out_both;
use holder_core::{CertList, HolderFault};
use keeper::Keeper;
use std::alloc::Global;

/// The certificates of the verifier's authorities and then its own, each in the order of adding: the last 64 of all.
///
/// It changes no row. `KeeperFault` comes only where the keeper's count of faults rose, and `NoMemory`.
pub fn list<B: Keeper>(alloc: Global, desk: u32, keeper: &mut B) -> Result<CertList, HolderFault>
    ensures told { Told (B.rows keeper.old) (B.rows keeper.new)
        (λ before after. (after ≡ before) × IfOk result (λ list. list ≡ verifier_list desk before)) }
    ensures asked { IfOk result (VerifierAsked desk) }
    ensures cause { KeeperCaused (B.faults keeper.old) (B.faults keeper.new) result }
{
    hand_out_both(alloc, desk, keeper)
}
