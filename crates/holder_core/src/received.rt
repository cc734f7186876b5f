// What came of certificates that came in.
ghost use Rattle.std.specs.Prelude.{◌≡◌, [], ◌∷◌, ◌++◌, length, OnOk, OnErr, slice_get};
ghost use Rattle.std.specs.Option.{option_copied};

use crate::{HolderFault, Taken, TakenCa};
use eac_base::{ByteLists, NoMemory};
use std::alloc::Global;
use std::marker::Model;

/// Certificates, each a list of bytes.
pub type CertList = ByteLists;

/// What came of one certificate.
#[derive(Debug, Drop)]
pub enum Item {
    /// It was taken for an own key.
    Own(Taken),
    /// It was taken for an authority's.
    Ca(TakenCa),
}

/// What came of certificates, in order.
#[derive(Debug, Drop)]
pub struct ItemList {
    items: Vec<Item>,
}

impl Model for ItemList {
    ghost use Rattle.std.specs.Prelude.{List};
    ghost use Rattle.holder_core.specs.declared.received.Item.{Item};

    ghost Value = { List Item };

    ghost view = { λ l. l.items.items };
}

/// What came of a list of certificates: an item for each, up to a fault.
#[derive(Debug, Drop)]
pub struct Received {
    pub items: ItemList,
    /// What broke it off.
    pub fault: Option<HolderFault>,
}

impl ItemList {
    /// No items.
    pub fn new(alloc: Global) -> ItemList
        ensures { result ≡ [] }
    {
        ItemList {
            items: Vec::new(alloc),
        }
    }

    /// The items of a vector, which is moved.
    pub(crate) fn from_vec(items: Vec<Item>) -> ItemList
        ensures { result ≡ items.items }
    {
        ItemList { items }
    }

    /// Appends the item, or nothing where memory is wanting.
    pub fn push(&mut self, item: Item) -> Result<(), NoMemory>
        ensures pushed { OnOk result (self.new ≡ self.old ++ item ∷ []) }
        ensures kept { OnErr result (self.new ≡ self.old) }
    {
        self.items.push(item)?;
        Ok(())
    }

    /// The number of items.
    pub fn len(&self) -> usize
        ensures { result ≡ length self.now }
    {
        self.items.len()
    }

    /// The item at a place from 0, and none from the length on.
    pub fn get(&self, at: usize) -> Option<&Item>
        ensures { option_copied result ≡ slice_get self.now at }
    {
        self.items.get(at)
    }
}
