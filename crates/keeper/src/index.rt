// Where the rows of a list stand: by key, by desk and by holder.
ghost use Rattle.std.specs.Prelude.{◌≡◌, ◌∷◌, ◌++◌, [], None, List, length, OnOk, OnErr};
ghost use Rattle.std.specs.BTreeMap.{get};
ghost use Rattle.std.specs.List.{position};
ghost use Rattle.keeper.specs.declared.rows.Row as said;
ghost use Rattle.keeper.specs.Rows.{has_key, is_of, kept_row};
ghost use Rattle.keeper.specs.Steps.{is_held};
ghost use Rattle.keeper.specs.Headings.{heading_cmp, Enters, StayPlaces, list_at, Becomes, with_place, without_last, StayLists, places_of, desk_of, holder_of};
ghost use Rattle.keeper.specs.Index.{AreKeyed, AreFiled, IsIndex};

use crate::heading::Heading;
use crate::{Row, Table};
use eac_base::NoMemory;
use holder_reference::{Holder, Reference};
use std::alloc::Global;
use std::collections::BTreeMap;
use std::marker::Model;

/// Places in a list of rows.
#[derive(Debug, Drop)]
struct Places {
    places: Vec<usize>,
}

impl Model for Places {
    ghost use Rattle.std.specs.Prelude.{ℕ, List};

    ghost Value = { List ℕ };

    ghost view = { λ p. p.places.items };
}

impl Places {
    fn new(alloc: Global) -> Places
        ensures { result ≡ [] }
    {
        Places {
            places: Vec::new(alloc),
        }
    }

    fn push(&mut self, place: usize) -> Result<(), NoMemory>
        ensures pushed { OnOk result (self.new ≡ with_place place self.old) }
        ensures kept { OnErr result (self.new ≡ self.old) }
    {
        self.places.push(place)?;
        Ok(())
    }

    fn drop_last(&mut self)
        ensures { self.new ≡ without_last self.old }
    {
        self.places.pop();
    }

    fn as_slice(&self) -> &[usize]
        ensures { result.now ≡ self.now }
    {
        self.places.as_slice()
    }
}

/// Places by heading. A heading that isn't there has none.
#[derive(Debug, Drop)]
struct PlaceLists {
    alloc: Global,
    lists: BTreeMap<Heading, Places>,
}

impl PlaceLists {
    fn new(alloc: Global) -> PlaceLists
        ensures { AreFiled desk_of result.lists [] × AreFiled holder_of result.lists [] }
    {
        PlaceLists {
            alloc,
            lists: BTreeMap::new(alloc),
        }
    }

    fn at(&self, heading: &Heading) -> &[usize]
        ensures { result.now ≡ list_at self.now.lists heading.now }
    {
        match self.lists.get(heading) {
            Some(places) => places.as_slice(),
            None => &[],
        }
    }

    /// The first place under a heading.
    fn begin(&mut self, heading: Heading, place: usize) -> Result<(), NoMemory>
        requires { list_at self.old.lists heading ≡ [] }
        ensures pushed { OnOk result (Becomes (with_place place) heading self.old.lists self.new.lists) }
        ensures kept { OnErr result (StayLists self.old.lists self.new.lists) }
    {
        let mut places = Places::new(self.alloc);
        places.push(place)?;
        self.lists.insert(heading, places)?;
        Ok(())
    }

    /// One place more under a heading.
    fn push(&mut self, heading: Heading, place: usize) -> Result<(), NoMemory>
        ensures pushed { OnOk result (Becomes (with_place place) heading self.old.lists self.new.lists) }
        ensures kept { OnErr result (StayLists self.old.lists self.new.lists) }
    {
        match self.lists.get_mut(&heading) {
            Some(places) => places.push(place),
            None => self.begin(heading, place),
        }
    }

    /// One place fewer.
    fn drop_last(&mut self, heading: &Heading)
        ensures { Becomes without_last heading.now self.old.lists self.new.lists }
    {
        if let Some(places) = self.lists.get_mut(heading) {
            places.drop_last();
        }
    }
}

/// The place of each key.
#[derive(Debug, Drop)]
struct KeyPlaces {
    places: BTreeMap<Heading, usize>,
}

impl KeyPlaces {
    fn new(alloc: Global) -> KeyPlaces
        ensures { AreKeyed result.places [] }
    {
        KeyPlaces {
            places: BTreeMap::new(alloc),
        }
    }

    fn at(&self, key: &Heading) -> Option<usize>
        ensures { result ≡ get heading_cmp self.now.places key.now }
    {
        self.places.get(key).copied()
    }

    /// Gives a key its place.
    fn enter(&mut self, key: Heading, place: usize) -> Result<(), NoMemory>
        ensures entered { OnOk result (Enters key place self.old.places self.new.places) }
        ensures kept { OnErr result (StayPlaces self.old.places self.new.places) }
    {
        self.places.insert(key, place)?;
        Ok(())
    }
}

/// Where rows stand in their list.
#[derive(Debug, Drop)]
pub(crate) struct Index {
    keys: KeyPlaces,
    desks: PlaceLists,
    holders: PlaceLists,
}

impl Index {
    /// That of no rows.
    pub(crate) fn new(alloc: Global) -> Index
        ensures { IsIndex result [] }
    {
        Index {
            keys: KeyPlaces::new(alloc),
            desks: PlaceLists::new(alloc),
            holders: PlaceLists::new(alloc),
        }
    }

    /// The place of the row of a key.
    pub(crate) fn place(&self, table: Table, desk: u32, reference: &Reference) -> Option<usize>
        ensures { (rows : List said.Row) → IsIndex self.now rows →
            result ≡ position (has_key table desk reference.now) rows }
    {
        self.keys.at(&Heading::at_row(table, desk, reference))
    }

    /// The places of a desk's rows in a table.
    pub(crate) fn at_desk(&self, table: Table, desk: u32) -> &[usize]
        ensures { (rows : List said.Row) → IsIndex self.now rows → result.now ≡ places_of (is_of table desk) rows }
    {
        self.desks.at(&Heading::at_desk(table, desk))
    }

    /// The places of those of a holder.
    pub(crate) fn of_holder(&self, table: Table, desk: u32, holder: &Holder) -> &[usize]
        ensures { (rows : List said.Row) → IsIndex self.now rows →
            result.now ≡ places_of (is_held table desk holder.now) rows }
    {
        self.holders.at(&Heading::at_holder(table, desk, holder))
    }

    /// Files a row that is new at a place, under its desk and its holder.
    fn file_lists(&mut self, row: &Row, place: usize) -> Result<(), NoMemory>
        ensures desks { OnOk result (Becomes (with_place place) (desk_of row.now)
            self.old.desks.lists self.new.desks.lists) }
        ensures holders { OnOk result (Becomes (with_place place) (holder_of row.now)
            self.old.holders.lists self.new.holders.lists) }
        ensures no_desks { OnErr result (StayLists self.old.desks.lists self.new.desks.lists) }
        ensures no_holders { OnErr result (StayLists self.old.holders.lists self.new.holders.lists) }
        ensures keys { self.new.keys ≡ self.old.keys }
    {
        self.desks.push(Heading::desk_of(row), place)?;
        match self.holders.push(Heading::holder_of(row), place) {
            Ok(()) => Ok(()),
            Err(refused) => {
                self.desks.drop_last(&Heading::desk_of(row));
                Err(refused)
            }
        }
    }

    /// Takes it out again.
    fn unfile_lists(&mut self, row: &Row)
        ensures desks { Becomes without_last (desk_of row.now) self.old.desks.lists self.new.desks.lists }
        ensures holders { Becomes without_last (holder_of row.now) self.old.holders.lists self.new.holders.lists }
        ensures keys { self.new.keys ≡ self.old.keys }
    {
        self.desks.drop_last(&Heading::desk_of(row));
        self.holders.drop_last(&Heading::holder_of(row));
    }

    /// Files a row with a new key, which gets this place. Nothing is filed where memory is wanting.
    pub(crate) fn file(&mut self, row: &Row, place: usize) -> Result<(), NoMemory>
        ensures filed { OnOk result ((rows : List said.Row) → place ≡ length rows → kept_row row.now rows ≡ None →
            IsIndex self.old rows → IsIndex self.new (rows ++ row.now ∷ [])) }
        ensures kept { OnErr result ((rows : List said.Row) → IsIndex self.old rows → IsIndex self.new rows) }
    {
        self.file_lists(row, place)?;
        match self.keys.enter(Heading::key_of(row), place) {
            Ok(()) => Ok(()),
            Err(refused) => {
                self.unfile_lists(row);
                Err(refused)
            }
        }
    }
}
