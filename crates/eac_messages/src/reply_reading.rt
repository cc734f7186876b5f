// Reading a reply: each test is one step.
ghost use Rattle.std.specs.Prelude.{◌≡◌, Ok, Some, IfOk, IsUtf8};
ghost use Rattle.eac_base.specs.Answers.{Answers};
ghost use Rattle.serde_json.specs.Data.{Data};
ghost use Rattle.serde_json.specs.View.{view};
ghost use Rattle.eac_messages.specs.Body.{refused_message, object_in};
ghost use Rattle.eac_messages.specs.Reply as words;
ghost use Rattle.eac_messages.specs.Reply.{CanBeReplied, AreCertificatesOf, IsReply};
ghost use Rattle.eac_messages.specs.Code.{carries_certificates};
ghost use Rattle.eac_messages.specs.declared.reply.Reply.{Reply};

use crate::base64_texts::certificates_in;
use crate::body::{id_in, object_in, text_at};
use crate::code::code_named;
use crate::{Code, Member, MessageRefusal, Reply};
use eac_base::ByteLists;
use serde_json::Value;
use std::alloc::Global;

fn code_in(object: &Value) -> Result<Code, MessageRefusal>
    ensures { Answers (λ c. c) (λ e. Some e) result (words.code_in (view object.now)) }
{
    let text = text_at(object, "code", Member::Code)?;
    match code_named(text) {
        Some(code) => Ok(code),
        None => Err(MessageRefusal::Member(Member::Code)),
    }
}

fn rule_in(object: &Value) -> Result<Option<u8>, MessageRefusal>
    ensures { Answers (λ r. r) (λ e. Some e) result (words.rule_in (view object.now)) }
{
    let Some(found) = object.get("rule") else {
        return Ok(None);
    };
    match found.as_u64() {
        Some(rule) => {
            if 1 <= rule && rule <= 14 {
                Ok(Some(rule as u8))
            } else {
                Err(MessageRefusal::Member(Member::Rule))
            }
        }
        None => Err(MessageRefusal::Member(Member::Rule)),
    }
}

fn certificates_under(
    alloc: Global,
    code: Code,
    object: &Value,
) -> Result<ByteLists, MessageRefusal>
    ensures exact { Answers (λ l. l) refused_message result (words.certificates_under code (view object.now)) }
    ensures found { IfOk result (λ l. AreCertificatesOf (carries_certificates code) l (view object.now)) }
{
    match code {
        Code::CertAvailable => certificates_in(alloc, object),
        _ => Ok(ByteLists::new(alloc)),
    }
}

fn reply_in(alloc: Global, object: &Value) -> Result<Reply, MessageRefusal>
    ensures exact { Answers (λ r. r) refused_message result (words.reply_in (view object.now)) }
    ensures content { IfOk result (λ r.
        AreCertificatesOf (carries_certificates r.code) r.certificates (view object.now)) }
    ensures text { IfOk result (λ r. IsUtf8 r.id) }
{
    let code = code_in(object)?;
    let id = id_in(alloc, object)?;
    let rule = rule_in(object)?;
    let certificates = certificates_under(alloc, code, object)?;
    Ok(Reply {
        id,
        code,
        rule,
        certificates,
    })
}

fn reply_of(alloc: Global, body: &[u8]) -> Result<Reply, MessageRefusal>
    ensures exact { Answers (λ r. r) refused_message result (words.read_reply body.now) }
    ensures content { IfOk result (λ r. (d : Data) × (object_in body.now ≡ Ok d)
        × AreCertificatesOf (carries_certificates r.code) r.certificates d) }
    ensures text { IfOk result (λ r. IsUtf8 r.id) }
{
    let object = object_in(alloc, body)?;
    reply_in(alloc, &object)
}

/// The reply that the whole body is.
///
/// The refusal is that of the first test that fails, in this order: the body is the JSON text of an object (`NotJson`);
/// `code` is a text, one of the nine codes; `messageID` is left out or a text of at most 64 bytes; `rule` is left out
/// or an integer from 1 to 14; `certificates` is an array of texts, where the code is [`Code::CertAvailable`]
/// (`Member`); each of these texts is base64 (`Base64`).
pub fn read_reply(alloc: Global, body: &[u8]) -> Result<Reply, MessageRefusal>
    ensures exact { Answers (λ r. r) refused_message result (words.read_reply body.now) }
    ensures found { IfOk result (λ r. IsReply r body.now) }
    ensures only { (r : Reply) → IsReply r body.now → Answers (λ s. s) refused_message result (Ok r) }
    ensures legal { IfOk result CanBeReplied }
{
    reply_of(alloc, body)
}
