// The one content of a template.
ghost use Rattle.std.specs.Prelude.{◌≡◌, IsTrue};
ghost use Rattle.chat_rights.specs.Kinds.{rights_fit};
ghost use Rattle.chat_rights.specs.Template as words;

use crate::{Kind, Template};

/// The content of the template's object 7F4C.
///
/// The role stands in bits 7 and 6 of the last byte (11 authority, 10 domestic and 01 foreign verifier, 00 terminal),
/// the rights in bits 5 to 0.
pub fn put_template(template: Template) -> [u8; 14]
    ensures text { result ≡ words.template_text template }
    ensures fit { IsTrue (rights_fit template.kind template.rights) }
{
    let byte = 64 * template.role.number() + template.rights.bits() as u8;
    match template.kind {
        Kind::Inspection => [
            0x06, 0x09, 0x04, 0x00, 0x7f, 0x00, 0x07, 0x03, 0x01, 0x02, 0x01, 0x53, 0x01, byte,
        ],
    }
}
