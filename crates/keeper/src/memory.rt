// A keeper in memory, over a list and its index. Its calls fail by a plan.
ghost use Rattle.std.specs.Prelude.{◌≡◌, [], Some};
ghost use Rattle.std.specs.List.{All};
ghost use Rattle.eac_base.specs.Telling.{Told};
ghost use Rattle.keeper.specs.Rows.{UniqueKeys, IsStorable, IsStorableSettled};
ghost use Rattle.keeper.specs.Keeping.{Adds, AddAsked, Settles, SettleAsked, Finds, FindAsked, ListsDesk, DeskAsked, ListsHolder, HolderAsked, Counts, CountAsked, FaultRose};
ghost use Rattle.keeper.specs.Planned.{next_moment, IsCounted, AddsAt, SettlesAt, ReadsAt};

use crate::changing::{append, append_and_fail, settle, settle_and_fail};
use crate::index::Index;
use crate::plan::{begin, count_fault};
use crate::reading::{copy_at, copy_desk, copy_holder, count_of};
use crate::{KeepRefusal, Keeper, KeeperPlan, Moment, Row, Rows, Settled, Table};
use holder_reference::{Holder, Reference};
use std::alloc::Global;
use std::marker::Model;

/// Rows in memory. They are always told.
#[derive(Debug, Drop)]
pub struct MemoryKeeper {
    rows: Vec<Row>,
    index: Index,
    plan: KeeperPlan,
    calls: u64,
    faults: u64,
    ghost unique: { UniqueKeys rows.items },
}

impl Model for MemoryKeeper {
    ghost use Rattle.std.specs.List.{All};
    ghost use Rattle.keeper.specs.Index.{IsIndex};
    ghost use Rattle.keeper.specs.Planned.{KeeperValue};
    ghost use Rattle.keeper.specs.Rows.{IsStorable};

    ghost Value = { KeeperValue };

    ghost view = { λ k. record {
      rows = k.rows.items;
      plan = k.plan;
      calls = k.calls;
      faults = k.faults;
      unique = k.unique;
    } };

    ghost invariant = { λ k. All IsStorable k.rows.items × IsIndex k.index k.rows.items };
}

impl MemoryKeeper {
    /// No rows, and no call yet.
    pub fn new(alloc: Global, plan: KeeperPlan) -> MemoryKeeper
        ensures rows { result.rows ≡ [] }
        ensures plan { result.plan ≡ plan }
        ensures calls { result.calls ≡ 0 }
        ensures faults { result.faults ≡ 0 }
    {
        MemoryKeeper {
            rows: Vec::new(alloc),
            index: Index::new(alloc),
            plan,
            calls: 0,
            faults: 0,
        }
    }
}

impl Keeper for MemoryKeeper {
    ghost rows = { λ k. Some k.rows };

    ghost faults = { λ k. k.faults };

    ghost unique = { λ k. k.unique };

    fn add(&mut self, alloc: Global, row: &Row) -> Result<(), KeepRefusal>
        requires { IsStorable row.now }
        ensures told { Told (Some self.old.rows) (Some self.new.rows)
            (λ before after. Adds before after row.now result) }
        ensures asked { AddAsked row.now result }
        ensures cause { FaultRose self.old.faults self.new.faults result }
        // It fails exactly where its plan says, before its change or after it.
        ensures planned { AddsAt (next_moment self.old.plan self.old.calls) self.old.rows self.new.rows row.now result }
        ensures counted { IsCounted self.old self.new result }
    {
        let result = match begin(&self.plan, &mut self.calls) {
            Some(Moment::Before) => Err(KeepRefusal::Failed),
            Some(Moment::After) => append_and_fail(alloc, &mut self.rows, &mut self.index, row),
            None => append(alloc, &mut self.rows, &mut self.index, row),
        };
        count_fault(&mut self.faults, &result);
        result
    }

    fn settle(
        &mut self,
        alloc: Global,
        desk: u32,
        reference: &Reference,
        settled: &Settled,
    ) -> Result<(), KeepRefusal>
        requires { IsStorableSettled settled.now }
        ensures told { Told (Some self.old.rows) (Some self.new.rows)
            (λ before after. Settles before after desk reference.now settled.now result) }
        ensures asked { SettleAsked desk reference.now result }
        ensures cause { FaultRose self.old.faults self.new.faults result }
        // It fails exactly where its plan says, before its change or after it.
        ensures planned { SettlesAt (next_moment self.old.plan self.old.calls)
            self.old.rows self.new.rows desk reference.now settled.now result }
        ensures counted { IsCounted self.old self.new result }
    {
        let result = match begin(&self.plan, &mut self.calls) {
            Some(Moment::Before) => Err(KeepRefusal::Failed),
            Some(Moment::After) => {
                settle_and_fail(alloc, &mut self.rows, &self.index, desk, reference, settled)
            }
            None => settle(alloc, &mut self.rows, &self.index, desk, reference, settled),
        };
        count_fault(&mut self.faults, &result);
        result
    }

    fn find(
        &mut self,
        alloc: Global,
        table: Table,
        desk: u32,
        reference: &Reference,
    ) -> Result<Option<Row>, KeepRefusal>
        ensures told { Told (Some self.old.rows) (Some self.new.rows)
            (λ before after. (after ≡ before) × Finds before table desk reference.now result) }
        ensures asked { FindAsked table desk reference.now result }
        ensures cause { FaultRose self.old.faults self.new.faults result }
        // It fails exactly where its plan says.
        ensures planned { ReadsAt (next_moment self.old.plan self.old.calls) result }
        ensures counted { IsCounted self.old self.new result }
    {
        let result = match begin(&self.plan, &mut self.calls) {
            Some(_) => Err(KeepRefusal::Failed),
            None => copy_at(alloc, &self.rows, &self.index, table, desk, reference),
        };
        count_fault(&mut self.faults, &result);
        result
    }

    fn of_desk(&mut self, alloc: Global, table: Table, desk: u32) -> Result<Rows, KeepRefusal>
        ensures told { Told (Some self.old.rows) (Some self.new.rows)
            (λ before after. (after ≡ before) × ListsDesk before table desk result) }
        ensures asked { DeskAsked table desk result }
        ensures cause { FaultRose self.old.faults self.new.faults result }
        // It fails exactly where its plan says.
        ensures planned { ReadsAt (next_moment self.old.plan self.old.calls) result }
        ensures counted { IsCounted self.old self.new result }
    {
        let result = match begin(&self.plan, &mut self.calls) {
            Some(_) => Err(KeepRefusal::Failed),
            None => copy_desk(alloc, &self.rows, &self.index, table, desk),
        };
        count_fault(&mut self.faults, &result);
        result
    }

    fn of_holder(
        &mut self,
        alloc: Global,
        table: Table,
        desk: u32,
        holder: &Holder,
    ) -> Result<Rows, KeepRefusal>
        ensures told { Told (Some self.old.rows) (Some self.new.rows)
            (λ before after. (after ≡ before) × ListsHolder before table desk holder.now result) }
        ensures asked { HolderAsked table desk holder.now result }
        ensures cause { FaultRose self.old.faults self.new.faults result }
        // It fails exactly where its plan says.
        ensures planned { ReadsAt (next_moment self.old.plan self.old.calls) result }
        ensures counted { IsCounted self.old self.new result }
    {
        let result = match begin(&self.plan, &mut self.calls) {
            Some(_) => Err(KeepRefusal::Failed),
            None => copy_holder(alloc, &self.rows, &self.index, table, desk, holder),
        };
        count_fault(&mut self.faults, &result);
        result
    }

    fn count(&mut self, _alloc: Global, table: Table, desk: u32) -> Result<u64, KeepRefusal>
        ensures told { Told (Some self.old.rows) (Some self.new.rows)
            (λ before after. (after ≡ before) × Counts before table desk result) }
        ensures asked { CountAsked result }
        ensures cause { FaultRose self.old.faults self.new.faults result }
        // It fails exactly where its plan says.
        ensures planned { ReadsAt (next_moment self.old.plan self.old.calls) result }
        ensures counted { IsCounted self.old self.new result }
    {
        let result = match begin(&self.plan, &mut self.calls) {
            Some(_) => Err(KeepRefusal::Failed),
            None => Ok(count_of(&self.rows, &self.index, table, desk) as u64),
        };
        count_fault(&mut self.faults, &result);
        result
    }
}
