// The one text of a call.
ghost use Rattle.std.specs.Prelude.{◌≡◌, IfOk, OnOk};
ghost use Rattle.serde_json.specs.View.{members_view};
ghost use Rattle.eac_messages.specs.Message.{CanBeCalled, message_text, message_members};
ghost use Rattle.eac_messages.specs.Steps.{content_put};

use crate::Message;
use crate::base64_texts::{base64_value, base64_values};
use crate::member_writing::{put_id, put_text, put_value, text_of};
use eac_base::{NoMemory, Octets};
use serde_json::{Map, Value};
use std::alloc::Global;

/// Puts the call's own member, where it has one.
fn put_content(
    members: &mut Map<String, Value>,
    alloc: Global,
    message: &Message,
) -> Result<(), NoMemory>
    ensures { OnOk result (members_view members.new.entries
        ≡ content_put message.now (members_view members.old.entries)) }
{
    match message {
        Message::RequestCertificate { request, .. } => {
            let value = base64_value(alloc, request.as_slice())?;
            put_value(members, alloc, "request", value)
        }
        Message::SendCertificates { certificates, .. } => {
            let value = base64_values(alloc, certificates)?;
            put_value(members, alloc, "certificates", value)
        }
        Message::GetCaCertificates { .. } => Ok(()),
    }
}

fn members_of(alloc: Global, message: &Message) -> Result<Map<String, Value>, NoMemory>
    requires { CanBeCalled message.now }
    ensures { IfOk result (λ m. members_view m.entries ≡ message_members message.now) }
{
    let mut members = Map::new(alloc);
    put_text(&mut members, alloc, "call", message.call().as_str())?;
    put_id(&mut members, alloc, message.id())?;
    put_content(&mut members, alloc, message)?;
    Ok(members)
}

/// The message's text: no space, and its members in the order of their names. An empty identifier isn't written.
pub fn write_message(alloc: Global, message: &Message) -> Result<Octets, NoMemory>
    requires { CanBeCalled message.now }
    ensures { IfOk result (λ o. o ≡ message_text message.now) }
{
    let members = members_of(alloc, message)?;
    text_of(alloc, members)
}
