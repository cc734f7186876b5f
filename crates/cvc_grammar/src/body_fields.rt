// The objects of a body, each with what it holds.
ghost use Rattle.std.specs.Prelude.{◌<◌, ◌≤◌, ◌^◌, IfOk};
ghost use Rattle.cvc_grammar.specs.ReadingOrder as order;
ghost use Rattle.cvc_grammar.specs.Views.{part_of, end_of, seen_key, Reads};

use crate::CvcRefusal;
use crate::key::KeyParts;
use crate::key::view::view_key;
use crate::parts::{Part, expected};
use chat_rights::{Template, read_template};
use cv_dates::{Day, read_date};
use holder_reference::{Reference, read_reference};
use tlv_core::Tag;

pub fn profile_in<'a>(part: Part<'a>) -> Result<Part<'a>, CvcRefusal>
    requires { end_of part < 2 ^ 32 }
    ensures exact { Reads (λ o. part_of o) result (order.profile_in (part_of part.entry)) }
    ensures rest { IfOk result (λ o. end_of o ≤ end_of part.entry) }
{
    let (content, rest) = expected(0x5f29, part)?;
    if content.bytes != [0x00].as_slice() {
        return Err(CvcRefusal::Profile);
    }
    Ok(rest)
}

pub fn reference_in<'a>(tag: Tag, part: Part<'a>) -> Result<(Reference, Part<'a>), CvcRefusal>
    requires { end_of part < 2 ^ 32 }
    ensures exact { Reads (λ o. (o.0, part_of o.1)) result (order.reference_in tag (part_of part.entry)) }
    ensures rest { IfOk result (λ o. end_of o.1 ≤ end_of part.entry) }
{
    let (content, rest) = expected(tag, part)?;
    Ok((read_reference(content.bytes)?, rest))
}

pub fn key_in<'a>(part: Part<'a>) -> Result<(KeyParts<'a>, Part<'a>), CvcRefusal>
    requires { end_of part < 2 ^ 32 }
    ensures exact { Reads (λ o. (seen_key o.0, part_of o.1)) result (order.key_in (part_of part.entry)) }
    ensures rest { IfOk result (λ o. end_of o.1 ≤ end_of part.entry) }
{
    let (content, rest) = expected(0x7f49, part)?;
    let Some(key) = view_key(content.bytes) else {
        return Err(CvcRefusal::Key);
    };
    if part.place + 1024 < rest.place {
        return Err(CvcRefusal::Key);
    }
    Ok((key, rest))
}

pub fn template_in<'a>(part: Part<'a>) -> Result<(Template, Part<'a>), CvcRefusal>
    requires { end_of part < 2 ^ 32 }
    ensures exact { Reads (λ o. (o.0, part_of o.1)) result (order.template_in (part_of part.entry)) }
    ensures rest { IfOk result (λ o. end_of o.1 ≤ end_of part.entry) }
{
    let (content, rest) = expected(0x7f4c, part)?;
    Ok((read_template(content.bytes)?, rest))
}

pub fn date_in<'a>(tag: Tag, part: Part<'a>) -> Result<(Day, Part<'a>), CvcRefusal>
    requires { end_of part < 2 ^ 32 }
    ensures exact { Reads (λ o. (o.0, part_of o.1)) result (order.date_in tag (part_of part.entry)) }
    ensures rest { IfOk result (λ o. end_of o.1 ≤ end_of part.entry) }
{
    let (content, rest) = expected(tag, part)?;
    Ok((read_date(content.bytes)?, rest))
}
