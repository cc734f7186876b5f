// Certificates as they lie in an input.
ghost use Rattle.std.specs.Prelude.{◌≡◌, ◌<◌, ◌^◌, IfOk, IsOkAnd};
ghost use Rattle.cvc_grammar.specs.ReadingOrder as order;
ghost use Rattle.cvc_grammar.specs.Certificate.{body_text, IsCert};
ghost use Rattle.cvc_grammar.specs.Views.{part_of, end_of, seen_body, seen_cert, IsViewOf, Reads};
ghost use Rattle.cvc_grammar.specs.declared.certificate.Cert.{Cert};

use crate::body_fields::{date_in, key_in, profile_in, reference_in, template_in};
use crate::extensions::extensions_in;
use crate::key::KeyParts;
use crate::parts::{Part, expected, nothing_in};
use crate::signed::signed_in;
use crate::{CertView, CvcRefusal};
use chat_rights::Template;
use cv_dates::Day;
use eac_base::are_bytes;
use holder_reference::Reference;

/// A body as it lies in an input.
#[derive(Clone, Copy)]
struct BodyView<'a> {
    authority: Reference,
    key: KeyParts<'a>,
    holder: Reference,
    template: Template,
    from: Day,
    until: Day,
    extensions: Option<&'a [u8]>,
}

// A `match` stands where `?` has no proof: the value holds a reference, a template or a day beside a part of the input.
fn cert_body_in<'a>(part: Part<'a>) -> Result<BodyView<'a>, CvcRefusal>
    requires { end_of part < 2 ^ 32 }
    ensures { Reads seen_body result (order.cert_body_in (part_of part.entry)) }
{
    let rest = profile_in(part)?;
    let (authority, rest) = match reference_in(0x42, rest) {
        Ok(o) => o,
        Err(e) => return Err(e),
    };
    let (key, rest) = key_in(rest)?;
    let (holder, rest) = match reference_in(0x5f20, rest) {
        Ok(o) => o,
        Err(e) => return Err(e),
    };
    let (template, rest) = match template_in(rest) {
        Ok(o) => o,
        Err(e) => return Err(e),
    };
    let (from, rest) = match date_in(0x5f25, rest) {
        Ok(o) => o,
        Err(e) => return Err(e),
    };
    let (until, rest) = match date_in(0x5f24, rest) {
        Ok(o) => o,
        Err(e) => return Err(e),
    };
    let extensions = extensions_in(rest)?;
    Ok(BodyView {
        authority,
        key,
        holder,
        template,
        from,
        until,
        extensions,
    })
}

/// The body and the signature, and the whole body.
fn signed_body_in<'a>(part: Part<'a>) -> Result<(BodyView<'a>, &'a [u8], &'a [u8]), CvcRefusal>
    requires { end_of part < 2 ^ 32 }
    ensures exact { Reads (λ o. record { body = seen_body o.0; signature = o.2.now })
        result (order.signed_cert_in (part_of part.entry)) }
    ensures whole { IfOk result (λ o. o.1.now ≡ body_text (seen_body o.0)) }
{
    let (body, whole, signature) = signed_in(part)?;
    are_bytes(body.bytes);
    match cert_body_in(body) {
        Ok(body) => Ok((body, whole, signature)),
        Err(e) => Err(e),
    }
}

fn whole_cert(bytes: &[u8]) -> Result<CertView, CvcRefusal>
    ensures exact { Reads seen_cert result (order.read_cert bytes.now) }
    ensures whole { IfOk result (λ v. v.whole.now ≡ bytes.now) }
    ensures body { IfOk result (λ v. v.body.now ≡ body_text (seen_cert v).body) }
{
    if 1792 < bytes.len() {
        return Err(CvcRefusal::TooLong);
    }
    let (content, rest) = expected(0x7f21, Part { place: 0, bytes })?;
    nothing_in(rest)?;
    match signed_body_in(content) {
        Err(e) => Err(e),
        Ok((view, body, signature)) => Ok(CertView {
            whole: bytes,
            body,
            signature,
            authority: view.authority,
            holder: view.holder,
            key: view.key.key,
            cofactor: view.key.cofactor,
            template: view.template,
            from: view.from,
            until: view.until,
            extensions: view.extensions,
        }),
    }
}

/// The certificate as it lies in the input. It takes no memory.
///
/// The refusal is that of the first step that fails, in this order: the input's size (`TooLong`); the object 7F21
/// (`Object`) with nothing behind it (`Trailing`); in it the body object 7F4E (`Object`) and the signature 5F37
/// (`Object`) with nothing behind them (`Trailing`); then the body's objects 5F29 (`Profile`), 42 (`Reference`), 7F49
/// (`Key`), 5F20 (`Reference`), 7F4C (`Template`), 5F25 and 5F24 (`Date`) and, where bytes are left, 65 with nothing
/// behind it (`Trailing`). An object that can't be read or has another tag is `Object`.
pub fn view_cert(bytes: &[u8]) -> Result<CertView, CvcRefusal>
    ensures exact { Reads seen_cert result (order.read_cert bytes.now) }
    ensures found { IfOk result (λ v. IsViewOf bytes.now v) }
    ensures only { (c : Cert) → IsCert c bytes.now → IsOkAnd result (λ v. seen_cert v ≡ c) }
{
    are_bytes(bytes);
    whole_cert(bytes)
}
