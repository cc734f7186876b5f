// Bytes as base64 texts, in both directions.
ghost use Rattle.std.specs.Prelude.{◌≡◌, Some, IfOk, is_some, codes};
ghost use Rattle.eac_base.specs.Answers.{Answers};
ghost use Rattle.serde_json.specs.Data.{array};
ghost use Rattle.serde_json.specs.Find.{as_array};
ghost use Rattle.serde_json.specs.View.{view, items_view};
ghost use Rattle.eac_messages.specs.declared.refusal.Member.TheVariants as names;
ghost use Rattle.eac_messages.specs.Body.{refused_message, texts_of, required};
ghost use Rattle.eac_messages.specs.Base64 as words;
ghost use Rattle.eac_messages.specs.Base64.{base64_text, base64_texts, HasCertificates};
ghost use Rattle.eac_messages.specs.Steps.{items_bytes, IsSpelled, AreSpelled};

use crate::{Member, MessageRefusal};
use base64::DecodeAllocError;
use base64::engine::general_purpose::STANDARD;
use eac_base::{ByteLists, NoMemory, Octets, are_bytes};
use serde_json::Value;
use std::alloc::Global;

/// The bytes that the text is the base64 of.
pub fn bytes_of(alloc: Global, text: &str, which: Member) -> Result<Octets, MessageRefusal>
    ensures exact { Answers (λ o. o) refused_message result (words.bytes_of which text.now) }
    ensures spelled { IfOk result (λ o. IsSpelled text.now o) }
{
    match STANDARD.decode(alloc, text.as_bytes()) {
        Ok(bytes) => {
            are_bytes(bytes.as_slice());
            Ok(Octets::from_vec(bytes))
        }
        Err(DecodeAllocError::OutOfMemory) => Err(MessageRefusal::NoMemory),
        Err(DecodeAllocError::DecodeError(_)) => Err(MessageRefusal::Base64(which)),
    }
}

fn are_texts(items: &[Value]) -> bool
    ensures { result ≡ is_some (texts_of (items_view items.now)) }
{
    'items: for item in items {
        if !item.is_string() {
            return false;
        }
    }
    true
}

/// The bytes of all of the texts.
fn all_bytes_of(alloc: Global, items: &[Value]) -> Result<ByteLists, MessageRefusal>
    ensures exact { Answers (λ l. l) refused_message result (items_bytes (items_view items.now)) }
    ensures spelled { IfOk result (λ l. AreSpelled (items_view items.now) l) }
{
    let mut lists = ByteLists::new(alloc);
    'items: for item in items {
        let Some(text) = item.as_str() else {
            return Err(MessageRefusal::Member(Member::Certificates));
        };
        let bytes = bytes_of(alloc, text, Member::Certificates)?;
        lists.push_octets(bytes)?;
    }
    Ok(lists)
}

fn items_at(object: &Value) -> Result<&[Value], MessageRefusal>
    ensures { Answers (λ s. items_view s.now) (λ e. Some e) result
        (required (codes "certificates") as_array names.Certificates (view object.now)) }
{
    match object.get("certificates").and_then(Value::as_array) {
        Some(items) => Ok(items.as_slice()),
        None => Err(MessageRefusal::Member(Member::Certificates)),
    }
}

/// The certificates that the object has to have.
pub fn certificates_in(alloc: Global, object: &Value) -> Result<ByteLists, MessageRefusal>
    ensures exact { Answers (λ l. l) refused_message result (words.certificates_in (view object.now)) }
    ensures found { IfOk result (λ l. HasCertificates l (view object.now)) }
{
    let items = items_at(object)?;
    if !are_texts(items) {
        return Err(MessageRefusal::Member(Member::Certificates));
    }
    all_bytes_of(alloc, items)
}

/// The text of the bytes.
pub fn base64_value(alloc: Global, bytes: &[u8]) -> Result<Value, NoMemory>
    ensures { IfOk result (λ v. view v ≡ base64_text bytes.now) }
{
    let text = STANDARD.encode(alloc, bytes)?;
    Ok(Value::String(text))
}

/// The texts of the lists, in their order.
pub fn base64_values(alloc: Global, lists: &ByteLists) -> Result<Value, NoMemory>
    ensures { IfOk result (λ v. view v ≡ array (base64_texts lists.now)) }
{
    let mut items = Vec::new(alloc);
    'lists: for at in 0..lists.len() {
        let Some(bytes) = lists.get(at) else {
            unreachable!()
        };
        items.push(base64_value(alloc, bytes)?)?;
    }
    Ok(Value::Array(items))
}
