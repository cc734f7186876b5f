// What is signed, and the signature behind it.
ghost use Rattle.std.specs.Prelude.{◌≡◌, ◌++◌, ◌<◌, ◌≤◌, ◌^◌, length, IsTrue, IfOk};
ghost use Rattle.tlv_core.specs.Object.{object, is_tag};
ghost use Rattle.cvc_grammar.specs.Certificate.{signature_object};
ghost use Rattle.cvc_grammar.specs.ReadingOrder as order;
ghost use Rattle.cvc_grammar.specs.Views.{part_of, end_of, Reads};

use crate::object_writing::{object_size, push_head, push_object};
use crate::parts::{Part, expected, nothing_in, whole_object};
use crate::{CvcRefusal, ObjectFault};
use eac_base::{NoMemory, Octets};
use std::alloc::Global;
use tlv_core::Tag;

/// The signature and the rest.
pub fn signature_in<'a>(part: Part<'a>) -> Result<(&'a [u8], Part<'a>), CvcRefusal>
    requires { end_of part < 2 ^ 32 }
    ensures exact { Reads (λ o. (o.0.now, part_of o.1)) result (order.signature_in (part_of part.entry)) }
    ensures rest { IfOk result (λ o. end_of o.1 ≤ end_of part.entry) }
{
    let (content, rest) = expected(0x5f37, part)?;
    let size = content.bytes.len();
    if size < 1 || 512 < size {
        return Err(CvcRefusal::Object {
            offset: part.place,
            fault: ObjectFault::Size,
        });
    }
    Ok((content.bytes, rest))
}

/// The body's content, the whole body object and the signature, with nothing behind it.
pub fn signed_in<'a>(part: Part<'a>) -> Result<(Part<'a>, &'a [u8], &'a [u8]), CvcRefusal>
    requires { end_of part < 2 ^ 32 }
    ensures exact { Reads (λ o. (part_of o.0, o.2.now)) result (order.signed_in (part_of part.entry)) }
    ensures whole { IfOk result (λ o. o.1.now ≡ object 0x7f4e o.0.bytes.now) }
    ensures content { IfOk result (λ o. end_of o.0 ≤ end_of part.entry) }
{
    let (body, whole, rest) = whole_object(0x7f4e, part)?;
    let (signature, rest) = signature_in(rest)?;
    nothing_in(rest)?;
    Ok((body, whole, signature))
}

/// The object whose content is what was signed, as it stands there, and the signature behind it.
pub fn write_signed(
    alloc: Global,
    tag: Tag,
    signed: &[u8],
    signature: &[u8],
) -> Result<Octets, NoMemory>
    requires tag { IsTrue (is_tag tag) }
    requires size { length (signed.now ++ signature_object signature.now) < 65536 }
    ensures { IfOk result (λ o. o ≡ object tag (signed.now ++ signature_object signature.now)) }
{
    let size = signed.len() + object_size(0x5f37, signature.len());
    let mut out = Octets::with_room(alloc, object_size(tag, size))?;
    push_head(&mut out, tag, size)?;
    out.push_all(signed)?;
    push_object(&mut out, 0x5f37, signature)?;
    Ok(out)
}
