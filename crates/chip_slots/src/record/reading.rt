// The record of a slot, read.
ghost use Rattle.std.specs.Prelude.{◌≡◌, ◌≤◌, ◌<◌, length, Some, None, IfSome, MatchOption, not, IsTrue};
ghost use Rattle.eac_base.specs.Bytes.{is_empty};
ghost use Rattle.chip_verify.specs.Trust.{IsPoint, ComesBefore};
ghost use Rattle.chip_slots.specs.Slot as words;
ghost use Rattle.chip_slots.specs.Points.{ArePoints};

use crate::layout::FORM;
use chat_rights::{Kind, Rights, Role, Template};
use chip_verify::{ChipKey, ChipState, TrustPoint};
use cv_dates::Day;
use holder_reference::{Reference, read_reference};
use signature_provider::{Algorithm, KeyView};

/// What is read, and the bytes left. `None` where fewer bytes are there.
fn bytes_in(size: usize, bytes: &[u8]) -> Option<(&[u8], &[u8])>
    ensures exact { MatchOption result (words.bytes_in size bytes.now ≡ None)
        (λ o. words.bytes_in size bytes.now ≡ Some (o.0.now, o.1.now)) }
    ensures front { IfSome result (λ o. length o.0.now ≡ size) }
{
    if bytes.len() < size {
        return None;
    }
    Some(bytes.split_at(size))
}

fn byte_in(bytes: &[u8]) -> Option<(u8, &[u8])>
    ensures { MatchOption result (words.number_in 1 bytes.now ≡ None)
        (λ o. words.number_in 1 bytes.now ≡ Some (o.0, o.1.now)) }
{
    let (front, rest) = bytes_in(1, bytes)?;
    match front {
        [a] => Some((*a, rest)),
        _ => None,
    }
}

fn two_bytes_in(bytes: &[u8]) -> Option<(u32, &[u8])>
    ensures exact { MatchOption result (words.number_in 2 bytes.now ≡ None)
        (λ o. words.number_in 2 bytes.now ≡ Some (o.0, o.1.now)) }
    ensures small { IfSome result (λ o. o.0 < 65536) }
{
    let (front, rest) = bytes_in(2, bytes)?;
    match front {
        [a, b] => Some((u16::from_be_bytes([*a, *b]) as u32, rest)),
        _ => None,
    }
}

fn eight_bytes_in(bytes: &[u8]) -> Option<(u64, &[u8])>
    ensures { MatchOption result (words.number_in 8 bytes.now ≡ None)
        (λ o. words.number_in 8 bytes.now ≡ Some (o.0, o.1.now)) }
{
    let (front, rest) = bytes_in(8, bytes)?;
    match front {
        [a, b, c, d, e, f, g, h] => {
            let number = u64::from_be_bytes([*a, *b, *c, *d, *e, *f, *g, *h]);
            Some((number, rest))
        }
        _ => None,
    }
}

fn reference_in(bytes: &[u8]) -> Option<(Reference, &[u8])>
    ensures { MatchOption result (words.reference_in bytes.now ≡ None)
        (λ o. words.reference_in bytes.now ≡ Some (o.0, o.1.now)) }
{
    let (size, rest) = byte_in(bytes)?;
    let (text, rest) = bytes_in(size as usize, rest)?;
    match read_reference(text) {
        Ok(reference) => Some((reference, rest)),
        Err(_) => None,
    }
}

fn authority_in(bytes: &[u8]) -> Option<(Template, &[u8])>
    ensures { MatchOption result (words.authority_in bytes.now ≡ None)
        (λ o. words.authority_in bytes.now ≡ Some (o.0, o.1.now)) }
{
    let (byte, rest) = byte_in(bytes)?;
    if byte / 64 != 3 {
        return None;
    }
    match Rights::from_bits((byte % 64) as u64) {
        None => None,
        Some(rights) => {
            let template = Template {
                kind: Kind::Inspection,
                role: Role::Cvca,
                rights,
            };
            Some((template, rest))
        }
    }
}

fn day_in(bytes: &[u8]) -> Option<(Day, &[u8])>
    ensures { MatchOption result (words.day_in bytes.now ≡ None) (λ o. words.day_in bytes.now ≡ Some (o.0, o.1.now)) }
{
    let (number, rest) = two_bytes_in(bytes)?;
    match Day::from_number(number) {
        None => None,
        Some(day) => Some((day, rest)),
    }
}

fn algorithm_in(bytes: &[u8]) -> Option<(Algorithm, &[u8])>
    ensures { MatchOption result (words.algorithm_in bytes.now ≡ None)
        (λ o. words.algorithm_in bytes.now ≡ Some (o.0, o.1.now)) }
{
    let (arc, rest) = byte_in(bytes)?;
    let (last, rest) = byte_in(rest)?;
    if arc < 1 || 2 < arc || 128 <= last {
        return None;
    }
    Some((Algorithm { arc, last }, rest))
}

fn part_in(bytes: &[u8]) -> Option<(&[u8], &[u8])>
    ensures exact { MatchOption result (words.part_in bytes.now ≡ None)
        (λ o. words.part_in bytes.now ≡ Some (o.0.now, o.1.now)) }
    ensures size { IfSome result (λ o. length o.0.now ≤ 1024) }
{
    let (size, rest) = two_bytes_in(bytes)?;
    let (part, rest) = bytes_in(size as usize, rest)?;
    if 1024 < part.len() {
        return None;
    }
    Some((part, rest))
}

fn has_bytes(bytes: &[u8]) -> bool
    ensures { result ≡ not (is_empty bytes.now) }
{
    match bytes {
        [] => false,
        _ => true,
    }
}

fn key_in(bytes: &[u8]) -> Option<(ChipKey, &[u8])>
    ensures { MatchOption result (words.key_in bytes.now ≡ None) (λ o. words.key_in bytes.now ≡ Some (o.0, o.1.now)) }
{
    let (algorithm, rest) = algorithm_in(bytes)?;
    let (domain, rest) = part_in(rest)?;
    let (point, rest) = part_in(rest)?;
    if !has_bytes(point) {
        return None;
    }
    let key = ChipKey::of(KeyView {
        algorithm,
        domain,
        point,
    });
    Some((key, rest))
}

fn point_in(bytes: &[u8]) -> Option<(TrustPoint, &[u8])>
    ensures read { MatchOption result (words.point_in bytes.now ≡ None)
        (λ o. words.point_in bytes.now ≡ Some (o.0, o.1.now)) }
    ensures legal { IfSome result (λ o. IsPoint o.0) }
{
    let (reference, rest) = match reference_in(bytes) {
        None => return None,
        Some(o) => o,
    };
    let (template, rest) = match authority_in(rest) {
        None => return None,
        Some(o) => o,
    };
    let (from, rest) = match day_in(rest) {
        None => return None,
        Some(o) => o,
    };
    let (until, rest) = match day_in(rest) {
        None => return None,
        Some(o) => o,
    };
    match key_in(rest) {
        None => None,
        Some((key, rest)) => {
            let point = TrustPoint {
                reference,
                template,
                from,
                until,
                key,
            };
            Some((point, rest))
        }
    }
}

/// The trust points of a state, the older first.
struct Points {
    older: Option<TrustPoint>,
    newest: TrustPoint,
}

fn comes_before(older: &TrustPoint, newest: &TrustPoint) -> bool
    ensures test { result ≡ words.comes_before older.now newest.now }
    ensures fact { IsTrue result → ComesBefore older.now newest.now }
{
    !older.reference.is(&newest.reference) && older.from.is_before(&newest.from)
}

fn one_point_in(bytes: &[u8]) -> Option<Points>
    ensures read { MatchOption result (words.one_point_in bytes.now ≡ None)
        (λ p. words.one_point_in bytes.now ≡ Some (p.older, p.newest)) }
    ensures legal { IfSome result (λ p. ArePoints p.older p.newest) }
{
    match point_in(bytes) {
        None => None,
        Some((newest, _)) => Some(Points {
            older: None,
            newest,
        }),
    }
}

fn two_points_in(bytes: &[u8]) -> Option<Points>
    ensures read { MatchOption result (words.two_points_in bytes.now ≡ None)
        (λ p. words.two_points_in bytes.now ≡ Some (p.older, p.newest)) }
    ensures legal { IfSome result (λ p. ArePoints p.older p.newest) }
{
    let (older, rest) = match point_in(bytes) {
        None => return None,
        Some(o) => o,
    };
    let (newest, _) = match point_in(rest) {
        None => return None,
        Some(o) => o,
    };
    if !comes_before(&older, &newest) {
        return None;
    }
    Some(Points {
        older: Some(older),
        newest,
    })
}

fn points_in(bytes: &[u8]) -> Option<Points>
    ensures read { MatchOption result (words.points_in bytes.now ≡ None)
        (λ p. words.points_in bytes.now ≡ Some (p.older, p.newest)) }
    ensures legal { IfSome result (λ p. ArePoints p.older p.newest) }
{
    let (count, rest) = byte_in(bytes)?;
    match count {
        1 => one_point_in(rest),
        2 => two_points_in(rest),
        _ => None,
    }
}

fn trust_in(bytes: &[u8]) -> Option<ChipState>
    ensures { MatchOption result (words.trust_in bytes.now ≡ None) (λ t. words.trust_in bytes.now ≡ Some t) }
{
    let (day, rest) = match day_in(bytes) {
        None => return None,
        Some(o) => o,
    };
    match points_in(rest) {
        None => None,
        Some(Points { older, newest }) => Some(ChipState { day, older, newest }),
    }
}

/// The state and the generation that the bytes behind a gate say, of the slot of this number, of so many.
pub fn read_record(slots: u64, slot: u64, bytes: &[u8]) -> Option<(ChipState, u64)>
    requires { 0 < slots }
    ensures { MatchOption result (words.record_of slots slot bytes.now ≡ None)
        (λ o. words.record_of slots slot bytes.now ≡ Some (o.0, o.1)) }
{
    let (form, rest) = byte_in(bytes)?;
    if form != FORM {
        return None;
    }
    let (generation, rest) = eight_bytes_in(rest)?;
    if generation % slots != slot {
        return None;
    }
    match trust_in(rest) {
        None => None,
        Some(state) => Some((state, generation)),
    }
}
