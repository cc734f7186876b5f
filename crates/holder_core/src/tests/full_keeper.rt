// A keeper without room, for tests.
ghost use Rattle.std.specs.Prelude.{◌≡◌, None};
ghost use Rattle.eac_base.specs.Telling.{Told};
ghost use Rattle.keeper.specs.Rows.{IsStorable, IsStorableSettled};
ghost use Rattle.keeper.specs.Keeping.{Adds, AddAsked, Settles, SettleAsked, Finds, FindAsked, ListsDesk, DeskAsked, ListsHolder, HolderAsked, Counts, CountAsked, FaultRose};

use holder_reference::{Holder, Reference};
use keeper::{KeepRefusal, Keeper, MemoryKeeper, Row, Rows, Settled, Table};
use std::alloc::Global;
use std::marker::Model;

/// A store whose tables are full, however few rows it gives. So it tells no rows.
#[derive(Debug, Drop)]
pub struct FullKeeper {
    kept: MemoryKeeper,
}

impl Model for FullKeeper {
    ghost use Rattle.keeper.specs.Planned.{KeeperValue};

    ghost Value = { KeeperValue };

    ghost view = { λ k. k.kept };
}

impl FullKeeper {
    /// A store that gives the rows of `kept`.
    pub fn new(kept: MemoryKeeper) -> FullKeeper
        ensures { result ≡ kept }
    {
        FullKeeper { kept }
    }
}

impl Keeper for FullKeeper {
    ghost rows = { λ k. None };

    ghost faults = { λ k. k.faults };

    ghost unique = { λ k. tt };

    fn add(&mut self, alloc: Global, row: &Row) -> Result<(), KeepRefusal>
        requires { IsStorable row.now }
        ensures told { Told None None (λ before after. Adds before after row.now result) }
        ensures asked { AddAsked row.now result }
        ensures cause { FaultRose self.old.faults self.new.faults result }
    {
        Err(KeepRefusal::Full)
    }

    fn settle(
        &mut self,
        alloc: Global,
        desk: u32,
        reference: &Reference,
        settled: &Settled,
    ) -> Result<(), KeepRefusal>
        requires { IsStorableSettled settled.now }
        ensures told { Told None None (λ before after. Settles before after desk reference.now settled.now result) }
        ensures asked { SettleAsked desk reference.now result }
        ensures cause { FaultRose self.old.faults self.new.faults result }
    {
        self.kept.settle(alloc, desk, reference, settled)
    }

    fn find(
        &mut self,
        alloc: Global,
        table: Table,
        desk: u32,
        reference: &Reference,
    ) -> Result<Option<Row>, KeepRefusal>
        ensures told { Told None None
            (λ before after. (after ≡ before) × Finds before table desk reference.now result) }
        ensures asked { FindAsked table desk reference.now result }
        ensures cause { FaultRose self.old.faults self.new.faults result }
    {
        self.kept.find(alloc, table, desk, reference)
    }

    fn of_desk(&mut self, alloc: Global, table: Table, desk: u32) -> Result<Rows, KeepRefusal>
        ensures told { Told None None (λ before after. (after ≡ before) × ListsDesk before table desk result) }
        ensures asked { DeskAsked table desk result }
        ensures cause { FaultRose self.old.faults self.new.faults result }
    {
        self.kept.of_desk(alloc, table, desk)
    }

    fn of_holder(
        &mut self,
        alloc: Global,
        table: Table,
        desk: u32,
        holder: &Holder,
    ) -> Result<Rows, KeepRefusal>
        ensures told { Told None None
            (λ before after. (after ≡ before) × ListsHolder before table desk holder.now result) }
        ensures asked { HolderAsked table desk holder.now result }
        ensures cause { FaultRose self.old.faults self.new.faults result }
    {
        self.kept.of_holder(alloc, table, desk, holder)
    }

    fn count(&mut self, alloc: Global, table: Table, desk: u32) -> Result<u64, KeepRefusal>
        ensures told { Told None None (λ before after. (after ≡ before) × Counts before table desk result) }
        ensures asked { CountAsked result }
        ensures cause { FaultRose self.old.faults self.new.faults result }
    {
        self.kept.count(alloc, table, desk)
    }
}
