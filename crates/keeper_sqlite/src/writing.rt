// The objects of a stored form, behind the bytes that are there.
ghost use Rattle.std.specs.Prelude.{◌≡◌, ◌++◌, ◌<◌, ◌≤◌, length, IsTrue, OnOk, IfSome};
ghost use Rattle.tlv_core.specs.Object.{object, is_tag};
ghost use Rattle.cv_dates.specs.Calendar.{last_day};
ghost use Rattle.keeper.specs.Rows.{IsStorableKey, IsStorableSettled, IsStorablePart};
ghost use Rattle.keeper_sqlite.specs.StoredRow.{key_text, dates_text, settled_text, if_settled, stored_text};
ghost use Rattle.keeper_sqlite.specs.StoredRow.{IsLegalSettled, IsLegalPart};

use chat_rights::put_template;
use cv_dates::{Day, put_date};
use eac_base::{NoMemory, Octets};
use keeper::{Part, Settled};
use signature_provider::Key;
use tlv_core::{Tag, object_head};

fn push_object(out: &mut Octets, tag: Tag, content: &[u8]) -> Result<(), NoMemory>
    requires tag { IsTrue (is_tag tag) }
    requires size { length content.now < 65536 }
    ensures { OnOk result (out.new ≡ out.old ++ object tag content.now) }
{
    out.push_all(object_head(tag, content.len() as u64).as_slice())?;
    out.push_all(content)
}

fn push_key(out: &mut Octets, key: &Key) -> Result<(), NoMemory>
    requires { IsStorableKey key.now }
    ensures { OnOk result (out.new ≡ out.old ++ key_text key.now) }
{
    push_object(out, 0x81, &[key.algorithm.arc, key.algorithm.last])?;
    push_object(out, 0x82, key.domain.as_slice())?;
    push_object(out, 0x83, key.point.as_slice())?;
    push_object(out, 0x84, key.cofactor.as_slice())
}

fn push_dates(out: &mut Octets, from: Day, until: Day) -> Result<(), NoMemory>
    ensures text { OnOk result (out.new ≡ out.old ++ dates_text from until) }
    ensures from { OnOk result (from ≤ last_day) }
    ensures until { OnOk result (until ≤ last_day) }
{
    push_object(out, 0x89, &put_date(from))?;
    push_object(out, 0x8a, &put_date(until))
}

fn push_settled(out: &mut Octets, settled: &Settled) -> Result<(), NoMemory>
    requires { IsStorableSettled settled.now }
    ensures text { OnOk result (out.new ≡ out.old ++ settled_text settled.now) }
    ensures legal { OnOk result (IsLegalSettled settled.now) }
{
    push_object(out, 0x86, settled.certificate.as_slice())?;
    push_object(out, 0x87, settled.issuer.as_slice())?;
    push_object(out, 0x88, &put_template(settled.template))?;
    push_dates(out, settled.from, settled.until)
}

fn push_if_settled(out: &mut Octets, settled: &Option<Settled>) -> Result<(), NoMemory>
    requires { IfSome settled.now IsStorableSettled }
    ensures text { OnOk result (out.new ≡ out.old ++ if_settled settled.now) }
    ensures legal { OnOk result (IfSome settled.now IsLegalSettled) }
{
    match settled {
        None => Ok(()),
        Some(settled) => push_settled(out, settled),
    }
}

pub(crate) fn push_part(out: &mut Octets, part: &Part) -> Result<(), NoMemory>
    requires { IsStorablePart part.now }
    ensures text { OnOk result (out.new ≡ out.old ++ stored_text part.now) }
    ensures legal { OnOk result (IsLegalPart part.now) }
{
    match part {
        Part::Register { request, day } => {
            push_object(out, 0x80, request.as_slice())?;
            push_object(out, 0x8b, day)
        }
        Part::Issued(part) => {
            push_object(out, 0x80, part.request.as_slice())?;
            push_key(out, &part.key)?;
            push_settled(out, &part.settled)
        }
        Part::Own(part) => {
            push_object(out, 0x80, part.request.as_slice())?;
            push_key(out, &part.key)?;
            push_object(out, 0x85, part.authority.as_slice())?;
            push_if_settled(out, &part.settled)
        }
        Part::Ca(part) => {
            push_key(out, &part.key)?;
            push_settled(out, &part.settled)
        }
    }
}
