// The one text of a reply.
ghost use Rattle.std.specs.Prelude.{◌≡◌, IfOk, OnOk, IsUtf8};
ghost use Rattle.serde_json.specs.View.{members_view};
ghost use Rattle.eac_messages.specs.Steps.{rule_put, certificates_put};
ghost use Rattle.eac_messages.specs.Reply.{CanBeReplied, reply_text, reply_members};

use crate::Reply;
use crate::base64_texts::base64_values;
use crate::member_writing::{put_id, put_text, put_value, text_of};
use eac_base::{NoMemory, Octets};
use serde_json::{Map, Number, Value};
use std::alloc::Global;

fn put_rule(
    members: &mut Map<String, Value>,
    alloc: Global,
    rule: Option<u8>,
) -> Result<(), NoMemory>
    ensures { OnOk result (members_view members.new.entries ≡ rule_put rule (members_view members.old.entries)) }
{
    match rule {
        Some(rule) => put_value(members, alloc, "rule", Value::Number(Number::from(rule))),
        None => Ok(()),
    }
}

fn put_certificates(
    members: &mut Map<String, Value>,
    alloc: Global,
    reply: &Reply,
) -> Result<(), NoMemory>
    ensures { OnOk result (members_view members.new.entries
        ≡ certificates_put reply.now.code reply.now.certificates (members_view members.old.entries)) }
{
    if !reply.code.carries_certificates() {
        return Ok(());
    }
    let value = base64_values(alloc, &reply.certificates)?;
    put_value(members, alloc, "certificates", value)
}

fn members_of(alloc: Global, reply: &Reply) -> Result<Map<String, Value>, NoMemory>
    requires { IsUtf8 reply.now.id }
    ensures { IfOk result (λ m. members_view m.entries ≡ reply_members reply.now) }
{
    let mut members = Map::new(alloc);
    put_text(&mut members, alloc, "code", reply.code.as_str())?;
    put_id(&mut members, alloc, reply.id.as_slice())?;
    put_rule(&mut members, alloc, reply.rule)?;
    put_certificates(&mut members, alloc, reply)?;
    Ok(members)
}

/// The reply's text: no space, and its members in the order of their names. An empty identifier isn't written, and
/// certificates come under [`crate::Code::CertAvailable`] alone.
pub fn write_reply(alloc: Global, reply: &Reply) -> Result<Octets, NoMemory>
    requires { CanBeReplied reply.now }
    ensures { IfOk result (λ o. o ≡ reply_text reply.now) }
{
    let members = members_of(alloc, reply)?;
    text_of(alloc, members)
}
