// A party's rows in a table.
ghost use Rattle.std.specs.Prelude.{◌≡◌, IfOk};
ghost use Rattle.std.specs.List.{All};
ghost use Rattle.eac_base.specs.Telling.{Told};
ghost use Rattle.keeper.specs.Rows.{rows_of};
ghost use Rattle.keeper.specs.Keeping.{IsDeskRow};
ghost use Rattle.holder_core.specs.Faults.{KeeperCaused};

use crate::HolderFault;
use crate::fault::fault_of;
use keeper::{Keeper, Rows, Table};
use std::alloc::Global;

/// The rows of a party in a table.
pub fn list_rows<B: Keeper>(
    alloc: Global,
    table: Table,
    party: u32,
    keeper: &mut B,
) -> Result<Rows, HolderFault>
    ensures told { Told (B.rows keeper.old) (B.rows keeper.new) (λ before after. (after ≡ before) × IfOk result (λ rows.
        rows ≡ rows_of table party before)) }
    ensures asked { IfOk result (All (IsDeskRow table party)) }
    ensures cause { KeeperCaused (B.faults keeper.old) (B.faults keeper.new) result }
{
    match keeper.of_desk(alloc, table, party) {
        Ok(rows) => Ok(rows),
        Err(refusal) => Err(fault_of(refusal)),
    }
}
