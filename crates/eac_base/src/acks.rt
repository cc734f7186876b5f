// Acknowledged imports.
ghost use Rattle.std.specs.Prelude.{◌≡◌, ◌≤◌, ◌+◌, [], ◌∷◌, ◌++◌, length, OnOk, OnErr, slice_get};
ghost use Rattle.std.specs.Option.{option_copied};

use crate::NoMemory;
use std::alloc::Global;
use std::marker::Model;

/// An import that a chip answered Ok: the chip's number, the import's number on that chip from 1, and the chip's
/// number of device calls when it returned.
#[derive(Clone, Copy, Debug, PartialEq, Eq)]
pub struct Ack {
    pub chip: u32,
    pub import: u64,
    pub calls: u64,
}

/// Acknowledgements, in order, and the room for more of them.
#[derive(Debug, Drop)]
pub struct Acks {
    acks: Vec<Ack>,
}

impl Model for Acks {
    ghost use Rattle.std.specs.Prelude.{◌-◌};
    ghost use Rattle.std.specs.Vec.{vec_len, vec_capacity};
    ghost use Rattle.eac_base.specs.Acknowledged.{AcksValue};

    ghost Value = { AcksValue };

    ghost view = { λ a. record { acks = a.acks.items; room = vec_capacity a.acks - vec_len a.acks } };
}

impl Acks {
    /// No acknowledgements.
    pub fn new(alloc: Global) -> Acks
        ensures { result.acks ≡ [] }
    {
        Acks {
            acks: Vec::new(alloc),
        }
    }

    /// Takes the room for one more, where memory isn't wanting.
    pub fn reserve(&mut self) -> Result<(), NoMemory>
        ensures room { OnOk result (1 ≤ self.new.room) }
        ensures kept { self.new.acks ≡ self.old.acks }
        ensures unchanged { OnErr result (self.new ≡ self.old) }
    {
        self.acks.reserve(1)?;
        Ok(())
    }

    /// Appends one into room that was taken before. It takes no memory and can't fail.
    pub fn push_reserved(&mut self, item: Ack)
        requires { 1 ≤ self.old.room }
        ensures pushed { self.new.acks ≡ self.old.acks ++ item ∷ [] }
        ensures room { self.old.room ≤ self.new.room + 1 }
    {
        match self.acks.push(item) {
            Ok(()) => {}
            Err(_) => unreachable!(),
        }
    }

    /// Appends one, or nothing where memory is wanting.
    pub fn push(&mut self, item: Ack) -> Result<(), NoMemory>
        ensures pushed { OnOk result (self.new.acks ≡ self.old.acks ++ item ∷ []) }
        ensures kept { OnErr result (self.new ≡ self.old) }
    {
        self.reserve()?;
        self.push_reserved(item);
        Ok(())
    }

    /// The number of acknowledgements.
    pub fn len(&self) -> usize
        ensures { result ≡ length self.now.acks }
    {
        self.acks.len()
    }

    /// The one at a place from 0, and none from the length on.
    pub fn get(&self, at: usize) -> Option<&Ack>
        ensures { option_copied result ≡ slice_get self.now.acks at }
    {
        self.acks.get(at)
    }
}
