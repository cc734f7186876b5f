// Members of an object that is to be written, and its text.
ghost use Rattle.std.specs.Prelude.{◌≡◌, IfOk, OnOk, IsUtf8, false};
ghost use Rattle.serde_json.specs.Data.{object, string, put};
ghost use Rattle.serde_json.specs.View.{view, members_view};
ghost use Rattle.serde_json.specs.Written.{compact_text, members_have_float};
ghost use Rattle.eac_messages.specs.Steps.{id_put};

use eac_base::{NoMemory, Octets};
use serde_json::{Map, Value};
use std::alloc::Global;

pub fn put_value(
    members: &mut Map<String, Value>,
    alloc: Global,
    name: &str,
    value: Value,
) -> Result<(), NoMemory>
    ensures { OnOk result (members_view members.new.entries
        ≡ put name.now (view value) (members_view members.old.entries)) }
{
    serde_json::put(members, alloc, name, value)?;
    Ok(())
}

pub fn put_text(
    members: &mut Map<String, Value>,
    alloc: Global,
    name: &str,
    text: &str,
) -> Result<(), NoMemory>
    ensures { OnOk result (members_view members.new.entries
        ≡ put name.now (string text.now) (members_view members.old.entries)) }
{
    let value = Value::String(String::from_str(alloc, text)?);
    put_value(members, alloc, name, value)
}

/// Puts the identifier, unless it is empty.
pub fn put_id(members: &mut Map<String, Value>, alloc: Global, id: &[u8]) -> Result<(), NoMemory>
    requires { IsUtf8 id.now }
    ensures { OnOk result (members_view members.new.entries ≡ id_put id.now (members_view members.old.entries)) }
{
    if id.is_empty() {
        return Ok(());
    }
    match std::str::from_utf8(id) {
        Ok(text) => put_text(members, alloc, "messageID", text),
        Err(_) => unreachable!(),
    }
}

/// The compact text of an object with these members, none of which has a float.
pub fn text_of(alloc: Global, members: Map<String, Value>) -> Result<Octets, NoMemory>
    requires { members_have_float (members_view members.entries) ≡ false }
    ensures { IfOk result (λ o. o ≡ compact_text (object (members_view members.entries))) }
{
    let text = Value::Object(members).to_string(alloc)?;
    Ok(Octets::from_vec(text.into_bytes()))
}
