// One test of reading is one function.
ghost use Rattle.std.specs.Prelude.{◌≡◌, Some, IfOk, IsOkAnd};
ghost use Rattle.eac_base.specs.Answers.{Answers};
ghost use Rattle.chat_rights.specs.Template as words;
ghost use Rattle.chat_rights.specs.Template.{IsTemplate};
ghost use Rattle.chat_rights.specs.declared.Template.{Template};

use crate::{Kind, Rights, Role, Template, TemplateRefusal};
use tlv_core::{Tag, next_object};

/// The content of the first object, which has to have this tag, and the rest.
fn part_with(tag: Tag, bytes: &[u8]) -> Result<(&[u8], &[u8]), TemplateRefusal>
    ensures { Answers (λ o. record { tag = tag; content = o.0.now; rest = o.1.now }) (λ e. Some e) result
        (words.part_with tag bytes.now) }
{
    match next_object(bytes) {
        Err(_) => Err(TemplateRefusal::Form),
        Ok((found, content, rest)) => {
            if found == tag {
                Ok((content, rest))
            } else {
                Err(TemplateRefusal::Form)
            }
        }
    }
}

fn template_in(content: &[u8]) -> Result<Template, TemplateRefusal>
    ensures { Answers (λ t. t) (λ e. Some e) result (words.read_template content.now) }
{
    let (identifier, rest) = part_with(0x06, content)?;
    let (access, rest) = part_with(0x53, rest)?;
    if !rest.is_empty() {
        return Err(TemplateRefusal::Form);
    }
    if identifier != Kind::Inspection.identifier().as_slice() {
        return Err(TemplateRefusal::UnknownType);
    }
    match access {
        [byte] => Ok(Template {
            kind: Kind::Inspection,
            role: Role::of_number(*byte / 64),
            rights: Rights::of_byte(*byte),
        }),
        _ => Err(TemplateRefusal::Width),
    }
}

/// The template that an object 7F4C with this content holds.
///
/// The refusal is that of the first test that fails, in this order: an object 06 followed by an object 53 and nothing
/// else (`Form`), the identifier of an inspection system in 06 (`UnknownType`), one byte in 53 (`Width`).
pub fn read_template(content: &[u8]) -> Result<Template, TemplateRefusal>
    ensures exact { Answers (λ t. t) (λ e. Some e) result (words.read_template content.now) }
    ensures found { IfOk result (λ t. IsTemplate t content.now) }
    ensures only { (t : Template) → IsTemplate t content.now → IsOkAnd result (λ found. found ≡ t) }
{
    template_in(content)
}
