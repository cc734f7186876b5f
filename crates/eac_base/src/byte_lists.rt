// Lists of lists of bytes: the words of a command line, the certificates of a message.
ghost use Rattle.std.specs.Prelude.{◌≡◌, ℕ, List, [], ◌∷◌, ◌++◌, length, OnOk, OnErr, slice_get};
ghost use Rattle.std.specs.Option.{option_copied};

use crate::{NoMemory, Octets};
use std::alloc::Global;
use std::marker::Model;

/// Lists of bytes, each a copy of its own.
#[derive(Debug, Drop)]
pub struct ByteLists {
    alloc: Global,
    lists: Vec<Octets>,
}

/// The words of a command line, each a list of bytes.
pub type Words = ByteLists;

impl Model for ByteLists {
    ghost use Rattle.std.specs.Prelude.{ℕ, List};

    ghost Value = { List (List ℕ) };

    ghost view = { λ l. l.lists.items };
}

impl ByteLists {
    /// No lists.
    pub fn new(alloc: Global) -> ByteLists
        ensures { result ≡ [] }
    {
        ByteLists {
            alloc,
            lists: Vec::new(alloc),
        }
    }

    /// Appends a copy of the bytes, or nothing where memory is wanting.
    pub fn push(&mut self, bytes: &[u8]) -> Result<(), NoMemory>
        ensures pushed { OnOk result (self.new ≡ self.old ++ bytes.now ∷ []) }
        ensures kept { OnErr result (self.new ≡ self.old) }
    {
        let copy = Octets::from_slice(self.alloc, bytes)?;
        self.push_octets(copy)
    }

    /// Appends the bytes, which are moved, or nothing where memory is wanting.
    pub fn push_octets(&mut self, list: Octets) -> Result<(), NoMemory>
        ensures pushed { OnOk result (self.new ≡ self.old ++ list ∷ []) }
        ensures kept { OnErr result (self.new ≡ self.old) }
    {
        self.lists.push(list)?;
        Ok(())
    }

    /// The number of lists.
    pub fn len(&self) -> usize
        ensures { result ≡ length self.now }
    {
        self.lists.len()
    }

    /// The list at a place from 0, and none from the length on.
    pub fn get(&self, at: usize) -> Option<&[u8]>
        ensures { option_copied result ≡ slice_get self.now at }
    {
        match self.lists.get(at) {
            Some(bytes) => Some(bytes.as_slice()),
            None => None,
        }
    }
}
