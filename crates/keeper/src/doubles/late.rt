// A keeper whose looks come too late, for tests of callers.
ghost use Rattle.std.specs.Prelude.{◌≡◌, None};
ghost use Rattle.eac_base.specs.Telling.{Told};
ghost use Rattle.keeper.specs.Rows.{IsStorable, IsStorableSettled};
ghost use Rattle.keeper.specs.Keeping.{Adds, AddAsked, Settles, SettleAsked, Finds, FindAsked, ListsDesk, DeskAsked, ListsHolder, HolderAsked, Counts, CountAsked, FaultRose};

use crate::{KeepRefusal, Keeper, MemoryKeeper, Row, Rows, Settled, Table};
use holder_reference::{Holder, Reference};
use std::alloc::Global;
use std::marker::Model;

/// A store that others write to: a look for an issued row finds none, since its row is added between the look and the
/// adding. So it tells no rows.
#[derive(Debug, Drop)]
pub struct LateKeeper {
    kept: MemoryKeeper,
}

impl Model for LateKeeper {
    ghost use Rattle.keeper.specs.Planned.{KeeperValue};

    ghost Value = { KeeperValue };

    ghost view = { λ k. k.kept };
}

impl LateKeeper {
    /// The rows of `kept`, none of which is told.
    pub fn new(kept: MemoryKeeper) -> LateKeeper
        ensures { result ≡ kept }
    {
        LateKeeper { kept }
    }
}

impl Keeper for LateKeeper {
    ghost rows = { λ k. None };

    ghost faults = { λ k. k.faults };

    ghost unique = { λ k. tt };

    fn add(&mut self, alloc: Global, row: &Row) -> Result<(), KeepRefusal>
        requires { IsStorable row.now }
        ensures told { Told None None (λ before after. Adds before after row.now result) }
        ensures asked { AddAsked row.now result }
        ensures cause { FaultRose self.old.faults self.new.faults result }
    {
        self.kept.add(alloc, row)
    }

    fn settle(
        &mut self,
        alloc: Global,
        desk: u32,
        reference: &Reference,
        settled: &Settled,
    ) -> Result<(), KeepRefusal>
        requires { IsStorableSettled settled.now }
        ensures told { Told None None (λ before after. Settles before after desk reference.now settled.now result) }
        ensures asked { SettleAsked desk reference.now result }
        ensures cause { FaultRose self.old.faults self.new.faults result }
    {
        self.kept.settle(alloc, desk, reference, settled)
    }

    fn find(
        &mut self,
        alloc: Global,
        table: Table,
        desk: u32,
        reference: &Reference,
    ) -> Result<Option<Row>, KeepRefusal>
        ensures told { Told None None
            (λ before after. (after ≡ before) × Finds before table desk reference.now result) }
        ensures asked { FindAsked table desk reference.now result }
        ensures cause { FaultRose self.old.faults self.new.faults result }
    {
        match table {
            Table::Issued => Ok(None),
            other => self.kept.find(alloc, other, desk, reference),
        }
    }

    fn of_desk(&mut self, alloc: Global, table: Table, desk: u32) -> Result<Rows, KeepRefusal>
        ensures told { Told None None (λ before after. (after ≡ before) × ListsDesk before table desk result) }
        ensures asked { DeskAsked table desk result }
        ensures cause { FaultRose self.old.faults self.new.faults result }
    {
        self.kept.of_desk(alloc, table, desk)
    }

    fn of_holder(
        &mut self,
        alloc: Global,
        table: Table,
        desk: u32,
        holder: &Holder,
    ) -> Result<Rows, KeepRefusal>
        ensures told { Told None None
            (λ before after. (after ≡ before) × ListsHolder before table desk holder.now result) }
        ensures asked { HolderAsked table desk holder.now result }
        ensures cause { FaultRose self.old.faults self.new.faults result }
    {
        match table {
            Table::Issued => Ok(Rows::new(alloc)),
            other => self.kept.of_holder(alloc, other, desk, holder),
        }
    }

    fn count(&mut self, alloc: Global, table: Table, desk: u32) -> Result<u64, KeepRefusal>
        ensures told { Told None None (λ before after. (after ≡ before) × Counts before table desk result) }
        ensures asked { CountAsked result }
        ensures cause { FaultRose self.old.faults self.new.faults result }
    {
        self.kept.count(alloc, table, desk)
    }
}
