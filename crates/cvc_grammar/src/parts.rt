// Parts of the input, each with its place, and the objects in them.
ghost use Rattle.std.specs.Prelude.{◌≡◌, ◌<◌, ◌≤◌, ◌^◌, IfOk};
ghost use Rattle.tlv_core.specs.Object.{object};
ghost use Rattle.cvc_grammar.specs.ReadingOrder as order;
ghost use Rattle.cvc_grammar.specs.Views.{part_of, end_of, Reads};

use crate::{CvcRefusal, ObjectFault};
use eac_base::are_bytes;
use tlv_core::{Tag, next_object};

/// A part of the input, and the place of its first byte there.
#[derive(Clone, Copy)]
pub struct Part<'a> {
    pub place: u64,
    pub bytes: &'a [u8],
}

/// The tag, the content and the rest.
pub fn object_in<'a>(part: Part<'a>) -> Result<(Tag, Part<'a>, Part<'a>), CvcRefusal>
    requires { end_of part < 2 ^ 32 }
    ensures exact { Reads (λ o. record { tag = o.0; content = part_of o.1; rest = part_of o.2 })
        result (order.object_in (part_of part.entry)) }
    ensures content { IfOk result (λ o. end_of o.1 ≤ end_of part.entry) }
    ensures rest { IfOk result (λ o. end_of o.2 ≤ end_of part.entry) }
{
    match next_object(part.bytes) {
        Err(e) => Err(CvcRefusal::Object {
            offset: part.place,
            fault: ObjectFault::Tlv(e),
        }),
        Ok((tag, content, rest)) => {
            let after = part.place + (part.bytes.len() - rest.len()) as u64;
            Ok((
                tag,
                Part {
                    place: after - content.len() as u64,
                    bytes: content,
                },
                Part {
                    place: after,
                    bytes: rest,
                },
            ))
        }
    }
}

/// The content of the object at the front, which has to have this tag, and the rest.
pub fn expected<'a>(tag: Tag, part: Part<'a>) -> Result<(Part<'a>, Part<'a>), CvcRefusal>
    requires { end_of part < 2 ^ 32 }
    ensures exact { Reads (λ o. record { tag = tag; content = part_of o.0; rest = part_of o.1 })
        result (order.expected tag (part_of part.entry)) }
    ensures content { IfOk result (λ o. end_of o.0 ≤ end_of part.entry) }
    ensures rest { IfOk result (λ o. end_of o.1 ≤ end_of part.entry) }
{
    let (found, content, rest) = object_in(part)?;
    if found != tag {
        return Err(CvcRefusal::Object {
            offset: part.place,
            fault: ObjectFault::OtherTag,
        });
    }
    Ok((content, rest))
}

/// The content of the object at the front, which has to have this tag, the whole object and the rest.
pub fn whole_object<'a>(
    tag: Tag,
    part: Part<'a>,
) -> Result<(Part<'a>, &'a [u8], Part<'a>), CvcRefusal>
    requires { end_of part < 2 ^ 32 }
    ensures exact { Reads (λ o. record { tag = tag; content = part_of o.0; rest = part_of o.2 })
        result (order.expected tag (part_of part.entry)) }
    ensures whole { IfOk result (λ o. o.1.now ≡ object tag o.0.bytes.now) }
    ensures content { IfOk result (λ o. end_of o.0 ≤ end_of part.entry) }
    ensures rest { IfOk result (λ o. end_of o.2 ≤ end_of part.entry) }
{
    let (content, rest) = expected(tag, part)?;
    are_bytes(part.bytes);
    let (whole, _) = part.bytes.split_at(part.bytes.len() - rest.bytes.len());
    Ok((content, whole, rest))
}

pub fn nothing_in(part: Part) -> Result<(), CvcRefusal>
    ensures { Reads (λ _. tt) result (order.nothing_in (part_of part.entry)) }
{
    if part.bytes.is_empty() {
        Ok(())
    } else {
        Err(CvcRefusal::Trailing)
    }
}
