// Reading a call: each test is one step.
ghost use Rattle.std.specs.Prelude.{◌≡◌, Ok, Some, IfOk, IsUtf8};
ghost use Rattle.eac_base.specs.Answers.{Answers};
ghost use Rattle.serde_json.specs.Data.{Data};
ghost use Rattle.serde_json.specs.View.{view};
ghost use Rattle.eac_messages.specs.Body.{refused_message, object_in};
ghost use Rattle.eac_messages.specs.Message as words;
ghost use Rattle.eac_messages.specs.Message.{CanBeCalled, HasContentOf, IsMessage, message_id};
ghost use Rattle.eac_messages.specs.declared.message.Message.{Message};

use crate::base64_texts::{bytes_of, certificates_in};
use crate::body::{id_in, object_in, text_at};
use crate::message::Call;
use crate::{Member, Message, MessageRefusal};
use eac_base::Octets;
use serde_json::Value;
use std::alloc::Global;

fn call_named(name: &str) -> Option<Call>
    ensures { result ≡ words.call_named name.now }
{
    match name {
        "RequestCertificate" => Some(Call::RequestCertificate),
        "SendCertificates" => Some(Call::SendCertificates),
        "GetCACertificates" => Some(Call::GetCaCertificates),
        _ => None,
    }
}

fn call_in(object: &Value) -> Result<Call, MessageRefusal>
    ensures { Answers (λ c. c) (λ e. Some e) result (words.call_in (view object.now)) }
{
    let name = text_at(object, "call", Member::Call)?;
    match call_named(name) {
        Some(call) => Ok(call),
        None => Err(MessageRefusal::Member(Member::Call)),
    }
}

fn request_in(alloc: Global, id: Octets, object: &Value) -> Result<Message, MessageRefusal>
    ensures exact { Answers (λ m. m) refused_message result (words.request_in id (view object.now)) }
    ensures content { IfOk result (λ m. HasContentOf m (view object.now)) }
    ensures text { IsUtf8 id → IfOk result (λ m. IsUtf8 (message_id m)) }
{
    let text = text_at(object, "request", Member::Request)?;
    let request = bytes_of(alloc, text, Member::Request)?;
    Ok(Message::RequestCertificate { id, request })
}

fn sent_in(alloc: Global, id: Octets, object: &Value) -> Result<Message, MessageRefusal>
    ensures exact { Answers (λ m. m) refused_message result (words.sent_in id (view object.now)) }
    ensures content { IfOk result (λ m. HasContentOf m (view object.now)) }
    ensures text { IsUtf8 id → IfOk result (λ m. IsUtf8 (message_id m)) }
{
    let certificates = certificates_in(alloc, object)?;
    Ok(Message::SendCertificates { id, certificates })
}

fn message_in(alloc: Global, object: &Value) -> Result<Message, MessageRefusal>
    ensures exact { Answers (λ m. m) refused_message result (words.message_in (view object.now)) }
    ensures content { IfOk result (λ m. HasContentOf m (view object.now)) }
    ensures text { IfOk result (λ m. IsUtf8 (message_id m)) }
{
    let call = call_in(object)?;
    let id = id_in(alloc, object)?;
    match call {
        Call::RequestCertificate => request_in(alloc, id, object),
        Call::SendCertificates => sent_in(alloc, id, object),
        Call::GetCaCertificates => Ok(Message::GetCaCertificates { id }),
    }
}

fn message_of(alloc: Global, body: &[u8]) -> Result<Message, MessageRefusal>
    ensures exact { Answers (λ m. m) refused_message result (words.read_message body.now) }
    ensures content { IfOk result (λ m. (d : Data) × (object_in body.now ≡ Ok d) × HasContentOf m d) }
    ensures text { IfOk result (λ m. IsUtf8 (message_id m)) }
{
    let object = object_in(alloc, body)?;
    message_in(alloc, &object)
}

/// The message that the whole body is.
///
/// The refusal is that of the first test that fails, in this order: the body is the JSON text of an object (`NotJson`);
/// `call` is a text, one of the three names; `messageID` is left out or a text of at most 64 bytes; the call's own
/// member is there, a text or an array of texts (`Member`); each of these texts is base64 (`Base64`).
pub fn read_message(alloc: Global, body: &[u8]) -> Result<Message, MessageRefusal>
    ensures exact { Answers (λ m. m) refused_message result (words.read_message body.now) }
    ensures found { IfOk result (λ m. IsMessage m body.now) }
    ensures only { (m : Message) → IsMessage m body.now → Answers (λ n. n) refused_message result (Ok m) }
    ensures legal { IfOk result CanBeCalled }
{
    message_of(alloc, body)
}
