// Where the rows of authorities stand, by their references.
ghost use Rattle.std.specs.Prelude.{◌≡◌, ℕ, List, [], OnOk, IfOk, Some, refl};
ghost use Rattle.std.specs.Ordering.{nat_cmp, eq_by_cmp};
ghost use Rattle.std.specs.Cmp.{partial_equiv_from_equiv};
ghost use Rattle.std.specs.Cmp.Lexicographic.{slice_cmp, nat_list_cmp_total};
ghost use Rattle.std.specs.BTreeMap.{get};
ghost use Rattle.keeper.specs.declared.rows.Row as said;
ghost use Rattle.terminal_desk.specs.Walks.{name_cmp, name_equiv, name_po, row_kept, FindsFirst, Enters};

use eac_base::NoMemory;
use holder_reference::Reference;
use keeper::{Part, Row};
use std::alloc::Global;
use std::cmp::Ordering;
use std::collections::BTreeMap;
use std::marker::Model;

/// A reference, ordered by its bytes.
#[derive(Drop)]
struct Name {
    reference: Reference,
}

impl Model for Name {
    ghost use Rattle.std.specs.Prelude.{ℕ, List};

    ghost Value = { List ℕ };

    ghost view = { λ n. n.reference };
}

impl Name {
    fn of(reference: &Reference) -> Name
        ensures { result ≡ reference.now }
    {
        Name {
            reference: *reference,
        }
    }

    fn as_slice(&self) -> &[u8]
        ensures { result.now ≡ self.now }
    {
        self.reference.as_slice()
    }
}

fn compare_bytes(a: &[u8], b: &[u8]) -> Ordering
    ensures { result ≡ slice_cmp nat_cmp a.now b.now }
{
    a.cmp(b)
}

impl PartialEq for Name {
    ghost eq = { eq_by_cmp name_cmp };

    ghost laws = { partial_equiv_from_equiv name_equiv };

    fn eq(&self, other: &Name) -> bool {
        self.cmp(other).is_eq()
    }
}

impl Eq for Name {
    ghost laws = { name_equiv };
}

impl PartialOrd for Name {
    ghost partial_cmp = { λ a b. Some (name_cmp a b) };

    ghost laws = { name_po };

    fn partial_cmp(&self, other: &Name) -> Option<Ordering> {
        Some(self.cmp(other))
    }
}

impl Ord for Name {
    ghost cmp = { name_cmp };

    ghost total = { nat_list_cmp_total };

    ghost matches_partial_cmp = { λ a b. refl };

    ghost matches_eq = { λ a b. refl };

    fn cmp(&self, other: &Name) -> Ordering {
        compare_bytes(self.as_slice(), other.as_slice())
    }
}

/// The place of the first row of an authority, by reference.
#[derive(Drop)]
pub(crate) struct Places {
    places: BTreeMap<Name, usize>,
}

impl Places {
    fn new(alloc: Global) -> Places
        ensures { (rows : List said.Row) → FindsFirst rows result.places [] }
    {
        Places {
            places: BTreeMap::new(alloc),
        }
    }

    // Keeps the place of an authority's row, in the place of one that was kept for its reference.
    fn enter(&mut self, row: &Row, place: usize) -> Result<(), NoMemory>
        ensures { OnOk result (Enters row.now place self.old.places self.new.places) }
    {
        if let Part::Ca(_) = &row.part {
            self.places.insert(Name::of(&row.reference), place)?;
        }
        Ok(())
    }

    /// Those of these rows.
    pub(crate) fn of(alloc: Global, rows: &[Row]) -> Result<Places, NoMemory>
        ensures { IfOk result (λ p. FindsFirst rows.now p.places rows.now) }
    {
        let mut places = Places::new(alloc);
        // from the last on, so that the first is kept
        let mut at = rows.len();
        'rows: while 0 < at {
            at -= 1;
            places.enter(&rows[at], at)?;
        }
        Ok(places)
    }

    /// The place that is kept for a reference.
    pub(crate) fn at(&self, reference: &Reference) -> Option<usize>
        ensures { result ≡ get name_cmp self.now.places reference.now }
    {
        self.places.get(&Name::of(reference)).copied()
    }
}
