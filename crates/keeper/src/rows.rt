// Rows as plain data.
ghost use Rattle.std.specs.Prelude.{◌≡◌};
ghost use Rattle.keeper.specs.Rows.{table_of, kind_of, has_key, is_of, is_of_holder, is_settled, with_settled};

use chat_rights::Template;
use cv_dates::Day;
use eac_base::{Octets, is_same};
use holder_reference::{Holder, Reference};
use signature_provider::Key;

/// What kind of row it is.
#[derive(Clone, Copy, Debug, PartialEq, Eq)]
pub enum Table {
    /// The plain register.
    Register,
    /// What a desk has issued.
    Issued,
    /// The keys and certificates of the party itself.
    Own,
    /// The certificates of the authorities that the party knows.
    Ca,
}

/// A certificate, with what is asked of it by those who look for one.
#[derive(Debug, Drop)]
pub struct Settled {
    /// Its bytes.
    pub certificate: Octets,
    /// Its certification authority reference.
    pub issuer: Reference,
    pub template: Template,
    /// Its effective date.
    pub from: Day,
    /// Its expiration date.
    pub until: Day,
}

/// What a desk issued for a request.
#[derive(Debug, Drop)]
pub struct IssuedPart {
    /// The request's bytes.
    pub request: Octets,
    /// The key that was certified, with its domain.
    pub key: Key,
    pub settled: Settled,
}

/// A key of the party itself.
#[derive(Debug, Drop)]
pub struct OwnPart {
    /// Whom the certificate is asked from.
    pub authority: Holder,
    /// The request's bytes; a founding or a link certificate has none.
    pub request: Octets,
    pub key: Key,
    /// The certificate, once it has come.
    pub settled: Option<Settled>,
}

/// A certificate of an authority.
#[derive(Debug, Drop)]
pub struct CaPart {
    /// Its key, with its domain.
    pub key: Key,
    pub settled: Settled,
}

/// What a row keeps. The variant is the row's table.
#[derive(Debug, Drop)]
pub enum Part {
    /// The bytes that were registered, and the day in six ASCII digits.
    Register { request: Octets, day: [u8; 6] },
    Issued(IssuedPart),
    Own(OwnPart),
    Ca(CaPart),
}

/// A row. Its table, desk and reference are its key.
#[derive(Debug, Drop)]
pub struct Row {
    /// The number of the party that keeps it; the plain register is desk 0.
    pub desk: u32,
    /// What was named by the row: the holder reference of its certificate.
    pub reference: Reference,
    /// What is kept under that name.
    pub part: Part,
}

impl Table {
    /// Its number, by which tables are ordered.
    pub(crate) fn number(self) -> u8
        ensures { result ≡ kind_of self }
    {
        match self {
            Table::Register => 0,
            Table::Issued => 1,
            Table::Own => 2,
            Table::Ca => 3,
        }
    }
}

impl Part {
    /// The table in which it is kept.
    pub fn table(&self) -> Table
        ensures { result ≡ table_of self.now }
    {
        match self {
            Part::Register { .. } => Table::Register,
            Part::Issued(_) => Table::Issued,
            Part::Own(_) => Table::Own,
            Part::Ca(_) => Table::Ca,
        }
    }

    /// Whether it has a certificate.
    pub fn is_settled(&self) -> bool
        ensures { result ≡ is_settled self.now }
    {
        match self {
            Part::Register { .. } => false,
            Part::Issued(_) => true,
            Part::Own(own) => own.settled.is_some(),
            Part::Ca(_) => true,
        }
    }
}

impl Row {
    /// Whether this is the row's key.
    pub fn has_key(&self, table: Table, desk: u32, reference: &Reference) -> bool
        ensures { result ≡ has_key table desk reference.now self.now }
    {
        self.is_of(table, desk) && is_same(self.reference.as_slice(), reference.as_slice())
    }

    /// Whether the row is of this table and desk.
    pub fn is_of(&self, table: Table, desk: u32) -> bool
        ensures { result ≡ is_of table desk self.now }
    {
        self.part.table() == table && self.desk == desk
    }

    /// Whether the row's reference is one of this holder.
    pub fn is_of_holder(&self, holder: &Holder) -> bool
        ensures { result ≡ is_of_holder holder.now self.now }
    {
        self.reference.holder().is(holder)
    }

    /// Gives an own row its certificate. Any other row stays.
    pub(crate) fn settle(&mut self, settled: Settled)
        ensures { self.new ≡ with_settled settled self.old }
    {
        if let Part::Own(own) = &mut self.part {
            own.settled = Some(settled);
        }
    }
}
