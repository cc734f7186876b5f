// The extensions of a body (object 65), where it has any: read, copied and written.
ghost use Rattle.std.specs.Prelude.{◌≡◌, ◌++◌, ◌<◌, ◌^◌, length, IfOk, OnOk, option_map};
ghost use Rattle.cvc_grammar.specs.ReadingOrder as order;
ghost use Rattle.cvc_grammar.specs.Certificate.{extensions_text};
ghost use Rattle.cvc_grammar.specs.Views.{part_of, end_of, Reads};

use crate::CvcRefusal;
use crate::object_writing::push_object;
use crate::parts::{Part, expected, nothing_in};
use eac_base::{NoMemory, Octets};
use std::alloc::Global;

pub fn extensions_in<'a>(part: Part<'a>) -> Result<Option<&'a [u8]>, CvcRefusal>
    requires { end_of part < 2 ^ 32 }
    ensures { Reads (λ o. option_map (λ e. e.now) o) result (order.extensions_in (part_of part.entry)) }
{
    if part.bytes.is_empty() {
        return Ok(None);
    }
    let (content, rest) = expected(0x65, part)?;
    nothing_in(rest)?;
    Ok(Some(content.bytes))
}

pub fn own_extensions(alloc: Global, extensions: Option<&[u8]>) -> Result<Option<Octets>, NoMemory>
    ensures { IfOk result (λ x. x ≡ option_map (λ e. e.now) extensions.entry) }
{
    match extensions {
        None => Ok(None),
        Some(bytes) => Ok(Some(Octets::from_slice(alloc, bytes)?)),
    }
}

pub fn push_extensions(out: &mut Octets, extensions: &Option<Octets>) -> Result<(), NoMemory>
    requires { length (extensions_text extensions.now) < 65536 }
    ensures { OnOk result (out.new ≡ out.old ++ extensions_text extensions.now) }
{
    match extensions {
        None => Ok(()),
        Some(content) => push_object(out, 0x65, content.as_slice()),
    }
}
