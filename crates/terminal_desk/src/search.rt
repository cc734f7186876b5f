// The chain that is due by the rows of a keeper.
ghost use Rattle.std.specs.Prelude.{◌≡◌, IfOk, IfErr};
ghost use Rattle.std.specs.List.{All};
ghost use Rattle.eac_base.specs.Telling.{Told};
ghost use Rattle.keeper.specs.Rows.{rows_of};
ghost use Rattle.keeper.specs.Keeping.{IsDeskRow};
ghost use Rattle.keeper.specs.declared.rows.Table.TheVariants as table;
ghost use Rattle.terminal_desk.specs.Search.{Searches, SearchAsked, SearchCaused, IsUnread};

use crate::{Chain, ChainRefusal, chain_for};
use holder_reference::Reference;
use keeper::{KeepRefusal, Keeper, Rows, Table};
use std::alloc::Global;
use std::error::Error;
use std::fmt;

/// Why no chain was found.
#[derive(Clone, Copy, Debug, PartialEq, Eq)]
pub enum SearchRefusal {
    /// No settled own row leads up to one of the references.
    NoChain,
    /// The keeper failed.
    KeeperFault,
    /// Memory is wanting.
    NoMemory,
}

impl fmt::Display for SearchRefusal {
    fn fmt<W: fmt::Write>(&self, f: &mut fmt::Formatter<W>) -> fmt::Result {
        f.write_str(match self {
            SearchRefusal::NoChain => "no certificate leads up to a trusted reference",
            SearchRefusal::KeeperFault => "the keeper failed",
            SearchRefusal::NoMemory => "memory is wanting",
        })
    }
}

impl Error for SearchRefusal {}

// A reading of the keeper is refused for nothing else but a fault and want of memory.
impl From<KeepRefusal> for SearchRefusal {
    ghost use Rattle.terminal_desk.specs.Search.{unread_for};

    ghost from_gives = { λ refused refusal. refusal ≡ unread_for refused };

    fn from(refused: KeepRefusal) -> Self {
        match refused {
            KeepRefusal::Failed => SearchRefusal::KeeperFault,
            KeepRefusal::Full
            | KeepRefusal::Twice(_)
            | KeepRefusal::Absent
            | KeepRefusal::NoMemory => SearchRefusal::NoMemory,
        }
    }
}

impl From<ChainRefusal> for SearchRefusal {
    ghost use Rattle.terminal_desk.specs.Search.{unbuilt_for};

    ghost from_gives = { λ refused refusal. refusal ≡ unbuilt_for refused };

    fn from(refused: ChainRefusal) -> Self {
        match refused {
            ChainRefusal::NoChain => SearchRefusal::NoChain,
            ChainRefusal::NoMemory => SearchRefusal::NoMemory,
        }
    }
}

// The rows of the desk in a table.
fn list<B: Keeper>(
    alloc: Global,
    table: Table,
    desk: u32,
    keeper: &mut B,
) -> Result<Rows, SearchRefusal>
    ensures told { Told (B.rows keeper.old) (B.rows keeper.new)
        (λ before after. (after ≡ before) × IfOk result (λ rows. rows ≡ rows_of table desk before)) }
    ensures asked { IfOk result (All (IsDeskRow table desk)) }
    ensures cause { SearchCaused (B.faults keeper.old) (B.faults keeper.new) result }
    ensures refused { IfErr result IsUnread }
{
    Ok(keeper.of_desk(alloc, table, desk)?)
}

/// The chain that is due to a chip whose trust points have these references, by the rows of a desk: see [`chain_for`].
///
/// It changes no row. `NoChain` comes exactly where no settled own row of the desk has a chain, `KeeperFault` only
/// where the keeper's count of faults rose.
pub fn find_chain<B: Keeper>(
    alloc: Global,
    desk: u32,
    cars: &[Reference],
    keeper: &mut B,
) -> Result<Chain, SearchRefusal>
    ensures told { Told (B.rows keeper.old) (B.rows keeper.new)
        (λ before after. (after ≡ before)
        × Searches cars.now (rows_of table.Own desk before) (rows_of table.Ca desk before) result) }
    ensures asked { SearchAsked desk cars.now result }
    ensures cause { SearchCaused (B.faults keeper.old) (B.faults keeper.new) result }
{
    let own = list(alloc, Table::Own, desk, keeper)?;
    let cas = list(alloc, Table::Ca, desk, keeper)?;
    Ok(chain_for(alloc, cars, &own, &cas)?)
}
