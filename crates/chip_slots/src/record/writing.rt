// The record of a slot, written.
ghost use Rattle.std.specs.Prelude.{◌≡◌, ◌≤◌, ◌+◌, ◌++◌, length, IfSome, IsTrue};
ghost use Rattle.eac_base.specs.Bytes.{big_endian};
ghost use Rattle.chip_verify.specs.Trust.{IsPoint, ComesBefore};
ghost use Rattle.chat_rights.specs.Kinds.{rights_fit};
ghost use Rattle.chat_rights.specs.Template.{template_byte};
ghost use Rattle.chip_slots.specs.Slot as words;

use crate::layout::FORM;
use arrayvec::ArrayVec;
use chat_rights::Template;
use chip_verify::laws::states_are_legal;
use chip_verify::{ChipKey, ChipState, TrustPoint};

/// A record as long as a slot has room for it.
pub type RecordBytes = ArrayVec<u8, 8191>;

fn put(text: &mut RecordBytes, bytes: &[u8])
    requires { length text.old.items + length bytes.now ≤ 8191 }
    ensures { text.new.items ≡ text.old.items ++ bytes.now }
{
    let _ = text.try_extend_from_slice(bytes);
}

fn one_byte(number: usize) -> [u8; 1]
    ensures { result ≡ big_endian 1 number }
{
    [(number % 256) as u8]
}

fn two_bytes(number: u16) -> [u8; 2]
    ensures { result ≡ big_endian 2 number }
{
    number.to_be_bytes()
}

fn eight_bytes(number: u64) -> [u8; 8]
    ensures { result ≡ big_endian 8 number }
{
    number.to_be_bytes()
}

fn put_key(text: &mut RecordBytes, key: &ChipKey)
    requires { length text.old.items + 2054 ≤ 8191 }
    ensures bytes { text.new.items ≡ text.old.items ++ words.key_text key.now }
    ensures size { length text.new.items ≤ length text.old.items + 2054 }
    ensures parts { (length key.now.domain ≤ 1024) × (length key.now.point ≤ 1024) }
{
    let view = key.view();
    put(text, &[view.algorithm.arc, view.algorithm.last]);
    put(text, &two_bytes(view.domain.len() as u16));
    put(text, view.domain);
    put(text, &two_bytes(view.point.len() as u16));
    put(text, view.point);
}

fn template_byte(template: Template) -> u8
    ensures byte { result ≡ template_byte template }
    ensures fit { IsTrue (rights_fit template.kind template.rights) }
{
    64 * template.role.number() + template.rights.bits() as u8
}

fn put_point(text: &mut RecordBytes, point: &TrustPoint)
    requires { length text.old.items + 2076 ≤ 8191 }
    ensures bytes { text.new.items ≡ text.old.items ++ words.point_text point.now }
    ensures size { length text.new.items ≤ length text.old.items + 2076 }
    ensures kept { IsPoint point.now → IsTrue (words.is_kept_point point.now) }
{
    let reference = point.reference.as_slice();
    put(text, &one_byte(reference.len()));
    put(text, reference);
    put(text, &[template_byte(point.template)]);
    put(text, &two_bytes(point.from.number() as u16));
    put(text, &two_bytes(point.until.number() as u16));
    put_key(text, &point.key);
}

fn put_points(text: &mut RecordBytes, older: &Option<TrustPoint>, newest: &TrustPoint)
    requires { length text.old.items + 4153 ≤ 8191 }
    ensures bytes { text.new.items ≡ text.old.items ++ words.points_text older.now newest.now }
    ensures size { length text.new.items ≤ length text.old.items + 4153 }
    ensures kept { IsPoint newest.now → IfSome older.now (λ p. IsPoint p × ComesBefore p newest.now) →
        IsTrue (words.are_kept_points older.now newest.now) }
{
    match older {
        None => {
            put(text, &[1]);
            put_point(text, newest);
        }
        Some(older) => {
            put(text, &[2]);
            put_point(text, older);
            put_point(text, newest);
        }
    }
}

/// The record of this state and generation.
pub fn write_record(state: &ChipState, generation: u64) -> RecordBytes
    ensures bytes { result.items ≡ words.record_text state.now generation }
    ensures short { length result.items ≤ 8191 }
    ensures kept { IsTrue (words.is_kept_trust state.now) }
{
    states_are_legal(state);
    let mut text = RecordBytes::new();
    put(&mut text, &[FORM]);
    put(&mut text, &eight_bytes(generation));
    put(&mut text, &two_bytes(state.day.number() as u16));
    put_points(&mut text, &state.older, &state.newest);
    text
}
