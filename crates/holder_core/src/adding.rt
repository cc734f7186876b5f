// The adding of a row.
ghost use Rattle.std.specs.Prelude.{◌≡◌, IfOk};
ghost use Rattle.eac_base.specs.Telling.{Told};
ghost use Rattle.keeper.specs.Rows.{IsStorable};
ghost use Rattle.holder_core.specs.Adding.{added_by as said, AddsRow, AddedAsked};
ghost use Rattle.holder_core.specs.Faults.{KeeperCaused};

use crate::HolderFault;
use keeper::{KeepRefusal, Keeper, Row};
use std::alloc::Global;

/// What came of an adding.
#[derive(Debug, Drop)]
pub enum Added {
    /// The row stands from now on.
    New,
    /// A row of its key is there, this one.
    There(Row),
    /// The party has as many rows in that table as it may have.
    Full,
}

fn added_by(answer: Result<(), KeepRefusal>) -> Result<Added, HolderFault>
    ensures { result ≡ said answer }
{
    match answer {
        Ok(()) => Ok(Added::New),
        Err(KeepRefusal::Twice(row)) => Ok(Added::There(row)),
        Err(KeepRefusal::Full) => Ok(Added::Full),
        Err(KeepRefusal::Failed) => Err(HolderFault::KeeperFault),
        Err(KeepRefusal::Absent) => Err(HolderFault::NoMemory),
        Err(KeepRefusal::NoMemory) => Err(HolderFault::NoMemory),
    }
}

/// Adds the row.
pub fn add_row<B: Keeper>(alloc: Global, row: &Row, keeper: &mut B) -> Result<Added, HolderFault>
    requires { IsStorable row.now }
    ensures told { Told (B.rows keeper.old) (B.rows keeper.new) (λ before after. AddsRow row.now before after result) }
    ensures asked { IfOk result (AddedAsked row.now) }
    ensures cause { KeeperCaused (B.faults keeper.old) (B.faults keeper.new) result }
{
    let answer = keeper.add(alloc, row);
    added_by(answer)
}
