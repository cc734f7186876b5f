// What lies in a stored form.
ghost use Rattle.std.specs.Prelude.{◌≡◌, option_map};
ghost use Rattle.keeper_sqlite.specs.ReadingOrder as order;
ghost use Rattle.keeper_sqlite.specs.Views.{seen_key, seen_settled};

use chat_rights::{Template, read_template};
use cv_dates::{Day, read_date};
use holder_reference::{Holder, Reference, read_holder, read_reference};
use signature_provider::Algorithm;
use tlv_core::{Tag, next_object};

/// A key as it lies in a stored form.
#[derive(Clone, Copy)]
pub struct KeyParts<'a> {
    pub algorithm: Algorithm,
    pub domain: &'a [u8],
    pub point: &'a [u8],
    pub cofactor: &'a [u8],
}

/// A certificate as it lies in a stored form.
#[derive(Clone, Copy)]
pub struct SettledParts<'a> {
    pub certificate: &'a [u8],
    pub issuer: Reference,
    pub template: Template,
    pub from: Day,
    pub until: Day,
}

/// The content of the object at the front, which has to have this tag, and the rest.
pub fn content_at(tag: Tag, bytes: &[u8]) -> Option<(&[u8], &[u8])>
    ensures { option_map (λ o. (o.0.now, o.1.now)) result ≡ order.content_at tag bytes.now }
{
    match next_object(bytes) {
        Ok((found, content, rest)) => {
            if found == tag {
                Some((content, rest))
            } else {
                None
            }
        }
        Err(_) => None,
    }
}

/// The content of the one object with this tag.
pub fn last_content(tag: Tag, bytes: &[u8]) -> Option<&[u8]>
    ensures { option_map (λ o. o.now) result ≡ order.last_content tag bytes.now }
{
    let (content, rest) = content_at(tag, bytes)?;
    if rest.is_empty() { Some(content) } else { None }
}

fn algorithm_in(bytes: &[u8]) -> Option<Algorithm>
    ensures { result ≡ order.algorithm_in bytes.now }
{
    match bytes {
        [arc, last] => {
            if 1 <= *arc && *arc <= 2 && *last < 128 {
                Some(Algorithm {
                    arc: *arc,
                    last: *last,
                })
            } else {
                None
            }
        }
        _ => None,
    }
}

pub fn key_in(bytes: &[u8]) -> Option<(KeyParts, &[u8])>
    ensures { option_map (λ o. (seen_key o.0, o.1.now)) result ≡ order.key_in bytes.now }
{
    let (algorithm, rest) = content_at(0x81, bytes)?;
    let (domain, rest) = content_at(0x82, rest)?;
    let (point, rest) = content_at(0x83, rest)?;
    let (cofactor, rest) = content_at(0x84, rest)?;
    let algorithm = algorithm_in(algorithm)?;
    let key = KeyParts {
        algorithm,
        domain,
        point,
        cofactor,
    };
    Some((key, rest))
}

fn reference_in(bytes: &[u8]) -> Option<Reference>
    ensures { result ≡ order.reference_in bytes.now }
{
    read_reference(bytes).ok()
}

/// The holder that the bytes are.
pub fn holder_in(bytes: &[u8]) -> Option<Holder>
    ensures { result ≡ order.holder_in bytes.now }
{
    read_holder(bytes).ok()
}

pub fn settled_in(bytes: &[u8]) -> Option<SettledParts>
    ensures { option_map seen_settled result ≡ order.settled_in bytes.now }
{
    let (certificate, rest) = content_at(0x86, bytes)?;
    let (issuer, rest) = content_at(0x87, rest)?;
    let (template, rest) = content_at(0x88, rest)?;
    let (from, rest) = content_at(0x89, rest)?;
    let until = last_content(0x8a, rest)?;
    Some(SettledParts {
        certificate,
        issuer: reference_in(issuer)?,
        template: read_template(template).ok()?,
        from: read_date(from).ok()?,
        until: read_date(until).ok()?,
    })
}
