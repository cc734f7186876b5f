// The stored form of a row's part.
ghost use Rattle.std.specs.Prelude.{◌≡◌, Some, IfOk, IfSome, option_map};
ghost use Rattle.keeper.specs.declared.rows.Part.{Part};
ghost use Rattle.keeper.specs.Rows.{table_of, IsStorablePart};
ghost use Rattle.keeper_sqlite.specs.StoredRow.{stored_text, IsStored};
ghost use Rattle.keeper_sqlite.specs.ReadingOrder as order;
ghost use Rattle.keeper_sqlite.specs.Views.{seen_key, seen_settled};

use crate::views::{
    KeyParts, SettledParts, content_at, holder_in, key_in, last_content, settled_in,
};
use crate::writing::push_part;
use eac_base::{NoMemory, Octets, are_bytes};
use keeper::{CaPart, IssuedPart, OwnPart, Part, Settled, Table};
use signature_provider::Key;
use std::alloc::Global;

/// The stored form of a part of which each list of bytes has at most 65,535 bytes and the algorithm has arc 1 or 2 and
/// a last number of at most 127. It is read as that part.
pub fn write_row_body(alloc: Global, part: &Part) -> Result<Octets, NoMemory>
    requires { IsStorablePart part.now }
    ensures text { IfOk result (λ o. o ≡ stored_text part.now) }
    ensures stored { IfOk result (λ o. IsStored (table_of part.now) part.now o) }
    ensures again { IfOk result (λ o. order.read_stored (table_of part.now) o ≡ Some part.now) }
{
    let mut out = Octets::new(alloc);
    push_part(&mut out, part)?;
    Ok(out)
}

fn own_key(alloc: Global, key: KeyParts) -> Result<Key, NoMemory>
    ensures { IfOk result (λ k. k ≡ seen_key key.entry) }
{
    Ok(Key {
        algorithm: key.algorithm,
        domain: Octets::from_slice(alloc, key.domain)?,
        point: Octets::from_slice(alloc, key.point)?,
        cofactor: Octets::from_slice(alloc, key.cofactor)?,
    })
}

fn own_settled(alloc: Global, settled: SettledParts) -> Result<Settled, NoMemory>
    ensures { IfOk result (λ s. s ≡ seen_settled settled.entry) }
{
    Ok(Settled {
        certificate: Octets::from_slice(alloc, settled.certificate)?,
        issuer: settled.issuer,
        template: settled.template,
        from: settled.from,
        until: settled.until,
    })
}

fn register_in(alloc: Global, body: &[u8]) -> Result<Option<Part>, NoMemory>
    ensures { IfOk result (λ p. p ≡ order.register_in body.now) }
{
    let Some((request, rest)) = content_at(0x80, body) else {
        return Ok(None);
    };
    let Some(day) = last_content(0x8b, rest) else {
        return Ok(None);
    };
    let [a, b, c, d, e, f] = day else {
        return Ok(None);
    };
    Ok(Some(Part::Register {
        request: Octets::from_slice(alloc, request)?,
        day: [*a, *b, *c, *d, *e, *f],
    }))
}

fn issued_in(alloc: Global, body: &[u8]) -> Result<Option<Part>, NoMemory>
    ensures { IfOk result (λ p. p ≡ order.issued_in body.now) }
{
    let Some((request, rest)) = content_at(0x80, body) else {
        return Ok(None);
    };
    let Some((key, rest)) = key_in(rest) else {
        return Ok(None);
    };
    let Some(settled) = settled_in(rest) else {
        return Ok(None);
    };
    Ok(Some(Part::Issued(IssuedPart {
        request: Octets::from_slice(alloc, request)?,
        key: own_key(alloc, key)?,
        settled: own_settled(alloc, settled)?,
    })))
}

/// The certificate that stands there, or none where nothing does; none at all where something else does.
fn settled_or_none(alloc: Global, bytes: &[u8]) -> Result<Option<Option<Settled>>, NoMemory>
    ensures { IfOk result (λ s. s ≡ order.settled_or_none bytes.now) }
{
    if bytes.is_empty() {
        return Ok(Some(None));
    }
    match settled_in(bytes) {
        Some(settled) => Ok(Some(Some(own_settled(alloc, settled)?))),
        None => Ok(None),
    }
}

fn own_in(alloc: Global, body: &[u8]) -> Result<Option<Part>, NoMemory>
    ensures { IfOk result (λ p. p ≡ order.own_in body.now) }
{
    let Some((request, rest)) = content_at(0x80, body) else {
        return Ok(None);
    };
    let Some((key, rest)) = key_in(rest) else {
        return Ok(None);
    };
    let Some((authority, rest)) = content_at(0x85, rest) else {
        return Ok(None);
    };
    let Some(authority) = holder_in(authority) else {
        return Ok(None);
    };
    let Some(settled) = settled_or_none(alloc, rest)? else {
        return Ok(None);
    };
    Ok(Some(Part::Own(OwnPart {
        authority,
        request: Octets::from_slice(alloc, request)?,
        key: own_key(alloc, key)?,
        settled,
    })))
}

fn ca_in(alloc: Global, body: &[u8]) -> Result<Option<Part>, NoMemory>
    ensures { IfOk result (λ p. p ≡ order.ca_in body.now) }
{
    let Some((key, rest)) = key_in(body) else {
        return Ok(None);
    };
    let Some(settled) = settled_in(rest) else {
        return Ok(None);
    };
    Ok(Some(Part::Ca(CaPart {
        key: own_key(alloc, key)?,
        settled: own_settled(alloc, settled)?,
    })))
}

fn read_stored(alloc: Global, table: Table, body: &[u8]) -> Result<Option<Part>, NoMemory>
    ensures { IfOk result (λ p. p ≡ order.read_stored table body.now) }
{
    match table {
        Table::Register => register_in(alloc, body),
        Table::Issued => issued_in(alloc, body),
        Table::Own => own_in(alloc, body),
        Table::Ca => ca_in(alloc, body),
    }
}

/// The part of this table whose stored form the bytes are, and none exactly where they aren't of that form.
pub fn read_row_body(alloc: Global, table: Table, body: &[u8]) -> Result<Option<Part>, NoMemory>
    ensures exact { IfOk result (λ p. p ≡ order.read_stored table body.now) }
    ensures found { IfOk result (λ p. IfSome p (λ part. IsStored table part body.now)) }
    ensures only { (part : Part) → IsStored table part body.now → IfOk result (λ p. p ≡ Some part) }
{
    are_bytes(body);
    read_stored(alloc, table, body)
}
