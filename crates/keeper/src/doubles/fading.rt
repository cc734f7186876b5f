// A keeper that stops telling, for tests of callers.
ghost use Rattle.std.specs.Prelude.{◌≡◌, ◌&&◌, true, is_ok};
ghost use Rattle.eac_base.specs.Telling.{Told};
ghost use Rattle.keeper.specs.Rows.{IsStorable, IsStorableSettled};
ghost use Rattle.keeper.specs.Keeping.{Adds, AddAsked, Settles, SettleAsked, Finds, FindAsked, ListsDesk, DeskAsked, ListsHolder, HolderAsked, Counts, CountAsked, FaultRose};
ghost use Rattle.keeper.specs.Fading.{told_if, told_unique};

use crate::{KeepRefusal, Keeper, MemoryKeeper, Row, Rows, Settled, Table};
use holder_reference::{Holder, Reference};
use std::alloc::Global;
use std::marker::Model;

/// A store that tells its rows only until a call of it is refused, as one does that can't know what a failing medium
/// kept. It stands for every such store in the tests of callers: whatever is promised over [`Keeper`] has to hold over
/// it.
#[derive(Debug, Drop)]
pub struct FadingKeeper {
    kept: MemoryKeeper,
    clean: bool,
}

impl Model for FadingKeeper {
    ghost use Rattle.keeper.specs.Fading.{FadingValue};

    ghost Value = { FadingValue };

    ghost view = { λ k. record { kept = k.kept; clean = k.clean } };
}

impl FadingKeeper {
    /// The rows of `kept`, which are told as yet.
    pub fn new(kept: MemoryKeeper) -> FadingKeeper
        ensures kept { result.kept ≡ kept }
        ensures clean { result.clean ≡ true }
    {
        FadingKeeper { kept, clean: true }
    }
}

impl Keeper for FadingKeeper {
    ghost rows = { λ k. told_if k.clean k.kept.rows };

    ghost faults = { λ k. k.kept.faults };

    ghost unique = { λ k. told_unique k.clean k.kept.rows k.kept.unique };

    fn add(&mut self, alloc: Global, row: &Row) -> Result<(), KeepRefusal>
        requires { IsStorable row.now }
        ensures told { Told (told_if self.old.clean self.old.kept.rows) (told_if self.new.clean self.new.kept.rows)
            (λ before after. Adds before after row.now result) }
        ensures asked { AddAsked row.now result }
        ensures cause { FaultRose self.old.kept.faults self.new.kept.faults result }
        // It tells until a call is refused.
        ensures clean { self.new.clean ≡ (self.old.clean && is_ok result) }
    {
        let result = self.kept.add(alloc, row);
        if result.is_err() {
            self.clean = false;
        }
        result
    }

    fn settle(
        &mut self,
        alloc: Global,
        desk: u32,
        reference: &Reference,
        settled: &Settled,
    ) -> Result<(), KeepRefusal>
        requires { IsStorableSettled settled.now }
        ensures told { Told (told_if self.old.clean self.old.kept.rows) (told_if self.new.clean self.new.kept.rows)
            (λ before after. Settles before after desk reference.now settled.now result) }
        ensures asked { SettleAsked desk reference.now result }
        ensures cause { FaultRose self.old.kept.faults self.new.kept.faults result }
        // It tells until a call is refused.
        ensures clean { self.new.clean ≡ (self.old.clean && is_ok result) }
    {
        let result = self.kept.settle(alloc, desk, reference, settled);
        if result.is_err() {
            self.clean = false;
        }
        result
    }

    fn find(
        &mut self,
        alloc: Global,
        table: Table,
        desk: u32,
        reference: &Reference,
    ) -> Result<Option<Row>, KeepRefusal>
        ensures told { Told (told_if self.old.clean self.old.kept.rows) (told_if self.new.clean self.new.kept.rows)
            (λ before after. (after ≡ before) × Finds before table desk reference.now result) }
        ensures asked { FindAsked table desk reference.now result }
        ensures cause { FaultRose self.old.kept.faults self.new.kept.faults result }
        // It tells until a call is refused.
        ensures clean { self.new.clean ≡ (self.old.clean && is_ok result) }
    {
        let result = self.kept.find(alloc, table, desk, reference);
        if result.is_err() {
            self.clean = false;
        }
        result
    }

    fn of_desk(&mut self, alloc: Global, table: Table, desk: u32) -> Result<Rows, KeepRefusal>
        ensures told { Told (told_if self.old.clean self.old.kept.rows) (told_if self.new.clean self.new.kept.rows)
            (λ before after. (after ≡ before) × ListsDesk before table desk result) }
        ensures asked { DeskAsked table desk result }
        ensures cause { FaultRose self.old.kept.faults self.new.kept.faults result }
        // It tells until a call is refused.
        ensures clean { self.new.clean ≡ (self.old.clean && is_ok result) }
    {
        let result = self.kept.of_desk(alloc, table, desk);
        if result.is_err() {
            self.clean = false;
        }
        result
    }

    fn of_holder(
        &mut self,
        alloc: Global,
        table: Table,
        desk: u32,
        holder: &Holder,
    ) -> Result<Rows, KeepRefusal>
        ensures told { Told (told_if self.old.clean self.old.kept.rows) (told_if self.new.clean self.new.kept.rows)
            (λ before after. (after ≡ before) × ListsHolder before table desk holder.now result) }
        ensures asked { HolderAsked table desk holder.now result }
        ensures cause { FaultRose self.old.kept.faults self.new.kept.faults result }
        // It tells until a call is refused.
        ensures clean { self.new.clean ≡ (self.old.clean && is_ok result) }
    {
        let result = self.kept.of_holder(alloc, table, desk, holder);
        if result.is_err() {
            self.clean = false;
        }
        result
    }

    fn count(&mut self, alloc: Global, table: Table, desk: u32) -> Result<u64, KeepRefusal>
        ensures told { Told (told_if self.old.clean self.old.kept.rows) (told_if self.new.clean self.new.kept.rows)
            (λ before after. (after ≡ before) × Counts before table desk result) }
        ensures asked { CountAsked result }
        ensures cause { FaultRose self.old.kept.faults self.new.kept.faults result }
        // It tells until a call is refused.
        ensures clean { self.new.clean ≡ (self.old.clean && is_ok result) }
    {
        let result = self.kept.count(alloc, table, desk);
        if result.is_err() {
            self.clean = false;
        }
        result
    }
}
