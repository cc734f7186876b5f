// Rows as a list that a reading gives.
ghost use Rattle.std.specs.Prelude.{◌≡◌, [], ◌∷◌, ◌++◌, length, OnOk, IfErr, slice_get};
ghost use Rattle.std.specs.Option.{option_copied};
ghost use Rattle.keeper.specs.declared.keeping.KeepRefusal.TheVariants.{NoMemory as RefusedNoMemory};

use crate::{KeepRefusal, Row};
use std::alloc::Global;
use std::marker::Model;

/// Rows, seen as their list.
#[derive(Debug, Drop)]
pub struct Rows {
    alloc: Global,
    rows: Vec<Row>,
}

impl Model for Rows {
    ghost use Rattle.std.specs.Prelude.{List};
    ghost use Rattle.keeper.specs.declared.rows.Row.{Row};

    ghost Value = { List Row };

    ghost view = { λ r. r.rows.items };
}

impl Rows {
    /// No rows.
    pub fn new(alloc: Global) -> Rows
        ensures { result ≡ [] }
    {
        Rows {
            alloc,
            rows: Vec::new(alloc),
        }
    }

    /// Appends a copy of the row, or nothing where memory is wanting: there is no other refusal.
    pub fn push(&mut self, row: &Row) -> Result<(), KeepRefusal>
        ensures pushed { OnOk result (self.new ≡ self.old ++ row.now ∷ []) }
        ensures refused { IfErr result (λ refusal. (refusal ≡ RefusedNoMemory) × (self.new ≡ self.old)) }
    {
        let row = row.copy(self.alloc)?;
        self.rows.push(row)?;
        Ok(())
    }

    /// The number of rows.
    pub fn len(&self) -> usize
        ensures { result ≡ length self.now }
    {
        self.rows.len()
    }

    /// The row at a place from 0, and none from the length on.
    pub fn get(&self, at: usize) -> Option<&Row>
        ensures { option_copied result ≡ slice_get self.now at }
    {
        self.rows.get(at)
    }

    /// The rows.
    pub fn as_slice(&self) -> &[Row]
        ensures { result.now ≡ self.now }
    {
        self.rows.as_slice()
    }
}
