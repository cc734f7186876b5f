// What rows are filed under.
ghost use Rattle.std.specs.Prelude.{◌≡◌, ◌≤◌, [], length, Some, refl};
ghost use Rattle.std.specs.Ordering.{nat_cmp, eq_by_cmp};
ghost use Rattle.std.specs.Cmp.{partial_equiv_from_equiv};
ghost use Rattle.std.specs.Cmp.Lexicographic.{slice_cmp};
ghost use Rattle.keeper.specs.Headings.{heading, heading_cmp, heading_total, heading_equiv, heading_po, desk_of, holder_of, key_of};

use crate::{Row, Table};
use holder_reference::{Holder, Reference};
use std::cmp::Ordering;
use std::marker::Model;

/// A table, a desk, and a name under them: none, a holder, or a reference.
#[derive(Debug, Drop)]
pub(crate) struct Heading {
    // the table's number
    kind: u8,
    desk: u32,
    // the name, with zeros behind it
    bytes: [u8; 16],
    len: usize,
}

impl Model for Heading {
    ghost use Rattle.std.specs.Prelude.{◌≡◌, ◌≤◌, take, length};
    ghost use Rattle.keeper.specs.Headings.{Heading as Seen};

    ghost Value = { Seen };

    ghost view = { λ h. record { kind = h.kind; desk = h.desk; bytes = take h.len h.bytes } };

    ghost invariant = { λ h. (h.len ≤ 16) × (length h.bytes ≡ 16) };
}

impl Heading {
    fn under(table: Table, desk: u32, name: &[u8]) -> Heading
        requires { length name.now ≤ 16 }
        ensures { result ≡ heading table desk name.now }
    {
        let mut bytes = [0u8; 16];
        bytes[..name.len()].copy_from_slice(name);
        Heading {
            kind: table.number(),
            desk,
            bytes,
            len: name.len(),
        }
    }

    fn name(&self) -> &[u8]
        ensures { result.now ≡ self.now.bytes }
    {
        &self.bytes[..self.len]
    }

    pub(crate) fn at_desk(table: Table, desk: u32) -> Heading
        ensures { result ≡ heading table desk [] }
    {
        Heading::under(table, desk, &[])
    }

    pub(crate) fn at_holder(table: Table, desk: u32, holder: &Holder) -> Heading
        ensures { result ≡ heading table desk holder.now }
    {
        Heading::under(table, desk, holder.as_slice())
    }

    pub(crate) fn at_row(table: Table, desk: u32, reference: &Reference) -> Heading
        ensures { result ≡ heading table desk reference.now }
    {
        Heading::under(table, desk, reference.as_slice())
    }

    pub(crate) fn desk_of(row: &Row) -> Heading
        ensures { result ≡ desk_of row.now }
    {
        Heading::at_desk(row.part.table(), row.desk)
    }

    pub(crate) fn holder_of(row: &Row) -> Heading
        ensures { result ≡ holder_of row.now }
    {
        Heading::at_holder(row.part.table(), row.desk, &row.reference.holder())
    }

    pub(crate) fn key_of(row: &Row) -> Heading
        ensures { result ≡ key_of row.now }
    {
        Heading::at_row(row.part.table(), row.desk, &row.reference)
    }
}

fn compare_bytes(a: &[u8], b: &[u8]) -> Ordering
    ensures { result ≡ slice_cmp nat_cmp a.now b.now }
{
    a.cmp(b)
}

impl PartialEq for Heading {
    ghost eq = { eq_by_cmp heading_cmp };

    ghost laws = { partial_equiv_from_equiv heading_equiv };

    fn eq(&self, other: &Heading) -> bool {
        self.cmp(other).is_eq()
    }
}

impl Eq for Heading {
    ghost laws = { heading_equiv };
}

impl PartialOrd for Heading {
    ghost partial_cmp = { λ a b. Some (heading_cmp a b) };

    ghost laws = { heading_po };

    fn partial_cmp(&self, other: &Heading) -> Option<Ordering> {
        Some(self.cmp(other))
    }
}

impl Ord for Heading {
    ghost cmp = { heading_cmp };

    ghost total = { heading_total };

    ghost matches_partial_cmp = { λ a b. refl };

    ghost matches_eq = { λ a b. refl };

    fn cmp(&self, other: &Heading) -> Ordering {
        let tables = self.kind.cmp(&other.kind);
        let desks = self.desk.cmp(&other.desk);
        tables
            .then(desks)
            .then(compare_bytes(self.name(), other.name()))
    }
}
