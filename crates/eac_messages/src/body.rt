// The object that a body is, and the members of either kind of body.
ghost use Rattle.std.specs.Prelude.{Some, IfOk, IsUtf8};
ghost use Rattle.eac_base.specs.Answers.{Answers};
ghost use Rattle.serde_json.specs.View.{view};
ghost use Rattle.serde_json.specs.Find.{as_str};
ghost use Rattle.eac_messages.specs.Body as words;
ghost use Rattle.eac_messages.specs.Body.{refused_message, required};

use crate::{Member, MessageRefusal};
use eac_base::Octets;
use serde_json::Value;
use std::alloc::Global;

/// The object that the whole body is the text of.
pub fn object_in(alloc: Global, body: &[u8]) -> Result<Value, MessageRefusal>
    ensures { Answers view refused_message result (words.object_in body.now) }
{
    match Value::from_slice(alloc, body) {
        Ok(value) => {
            if value.is_object() {
                Ok(value)
            } else {
                Err(MessageRefusal::NotJson)
            }
        }
        Err(error) => {
            if error.is_memory() {
                Err(MessageRefusal::NoMemory)
            } else {
                Err(MessageRefusal::NotJson)
            }
        }
    }
}

/// The text that the object has to have at this name.
pub fn text_at<'a>(object: &'a Value, name: &str, which: Member) -> Result<&'a str, MessageRefusal>
    ensures { Answers (λ s. s.now) (λ e. Some e) result (required name.now as_str which (view object.now)) }
{
    match object.get(name).and_then(Value::as_str) {
        Some(text) => Ok(text),
        None => Err(MessageRefusal::Member(which)),
    }
}

/// The identifier that the object has, or none.
pub fn id_in(alloc: Global, object: &Value) -> Result<Octets, MessageRefusal>
    ensures exact { Answers (λ o. o) refused_message result (words.id_in (view object.now)) }
    ensures text { IfOk result (λ o. IsUtf8 o) }
{
    let Some(found) = object.get("messageID") else {
        return Ok(Octets::new(alloc));
    };
    match found.as_str() {
        Some(text) => {
            if text.len() <= 64 {
                Ok(Octets::from_slice(alloc, text.as_bytes())?)
            } else {
                Err(MessageRefusal::Member(Member::MessageId))
            }
        }
        None => Err(MessageRefusal::Member(Member::MessageId)),
    }
}
