// Objects behind the bytes that are there.
ghost use Rattle.std.specs.Prelude.{◌≡◌, ◌++◌, ◌<◌, ◌≤◌, ◌+◌, ℕ, List, length, IsTrue, IfOk, OnOk};
ghost use Rattle.tlv_core.specs.Object.{object, is_tag, tag_bytes, length_bytes};

use eac_base::{NoMemory, Octets};
use std::alloc::Global;
use tlv_core::{Tag, object_head};

/// The bytes of an object whose content has so many.
pub fn object_size(tag: Tag, size: usize) -> usize
    requires tag { IsTrue (is_tag tag) }
    requires size { size < 65536 }
    ensures exact { (content : List ℕ) → length content ≡ size → result ≡ length (object tag content) }
    ensures most { result ≤ size + 5 }
{
    object_head(tag, size as u64).as_slice().len() + size
}

/// The head of an object whose content has so many bytes. The caller appends the content.
pub fn push_head(out: &mut Octets, tag: Tag, size: usize) -> Result<(), NoMemory>
    requires tag { IsTrue (is_tag tag) }
    requires size { size < 65536 }
    ensures { OnOk result (out.new ≡ out.old ++ (tag_bytes tag ++ length_bytes size)) }
{
    out.push_all(object_head(tag, size as u64).as_slice())
}

/// An object.
pub fn push_object(out: &mut Octets, tag: Tag, content: &[u8]) -> Result<(), NoMemory>
    requires tag { IsTrue (is_tag tag) }
    requires size { length content.now < 65536 }
    ensures { OnOk result (out.new ≡ out.old ++ object tag content.now) }
{
    push_head(out, tag, content.len())?;
    out.push_all(content)
}

/// An object of its own.
pub fn write_object(alloc: Global, tag: Tag, content: &[u8]) -> Result<Octets, NoMemory>
    requires tag { IsTrue (is_tag tag) }
    requires size { length content.now < 65536 }
    ensures { IfOk result (λ o. o ≡ object tag content.now) }
{
    let mut out = Octets::with_room(alloc, object_size(tag, content.len()))?;
    push_object(&mut out, tag, content)?;
    Ok(out)
}
