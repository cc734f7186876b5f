// Requests as they lie in an input.
ghost use Rattle.std.specs.Prelude.{◌≡◌, ◌<◌, ◌≤◌, ◌^◌, ◌&&◌, ◌||◌, not, Option, None, IfOk, IsOkAnd, IsTrue};
ghost use Rattle.tlv_core.specs.Object.{object};
ghost use Rattle.signature_provider.specs.Key as keys;
ghost use Rattle.cvc_grammar.specs.ReadingOrder as certs;
ghost use Rattle.cvc_grammar.specs.RequestOrder as order;
ghost use Rattle.cvc_grammar.specs.Request as texts;
ghost use Rattle.cvc_grammar.specs.Request.{IsRequest};
ghost use Rattle.cvc_grammar.specs.declared.request.Outer.{Outer};
ghost use Rattle.cvc_grammar.specs.declared.request.Request.{Request};
ghost use Rattle.cvc_grammar.specs.Views.{part_of, end_of, seen_key, Reads};
ghost use Rattle.cvc_grammar.specs.RequestViews.{seen_request_body, seen_request, IsRequestView, LiesIn};

use crate::body_fields::{key_in, profile_in, reference_in};
use crate::extensions::extensions_in;
use crate::key::KeyParts;
use crate::parts::{Part, nothing_in, object_in, whole_object};
use crate::signed::{signature_in, signed_in};
use crate::{CvcRefusal, ObjectFault, OuterView, RequestView};
use eac_base::are_bytes;
use holder_reference::{Reference, read_reference};

/// A request's body as it lies in an input.
#[derive(Clone, Copy)]
pub struct RequestBodyView<'a> {
    pub authority: Option<Reference>,
    pub key: KeyParts<'a>,
    pub holder: Reference,
    pub extensions: Option<&'a [u8]>,
}

/// The content of a bare request, as it lies in an input.
#[derive(Clone, Copy)]
struct BareView<'a> {
    fields: RequestBodyView<'a>,
    /// The whole body object.
    body: &'a [u8],
    inner: &'a [u8],
}

/// The authority's reference, where the object at the front has its tag, and the rest.
fn authority_in<'a>(part: Part<'a>) -> Result<(Option<Reference>, Part<'a>), CvcRefusal>
    requires { end_of part < 2 ^ 32 }
    ensures exact { Reads (λ o. (o.0, part_of o.1)) result (order.authority_in (part_of part.entry)) }
    ensures rest { IfOk result (λ o. end_of o.1 ≤ end_of part.entry) }
{
    let (tag, _, _) = object_in(part)?;
    if tag != 0x42 {
        return Ok((None, part));
    }
    match reference_in(0x42, part) {
        Ok((reference, rest)) => Ok((Some(reference), rest)),
        Err(e) => Err(e),
    }
}

/// The key, with what is known of each key that was read.
fn legal_key_in<'a>(part: Part<'a>) -> Result<(KeyParts<'a>, Part<'a>), CvcRefusal>
    requires { end_of part < 2 ^ 32 }
    ensures exact { Reads (λ o. (seen_key o.0, part_of o.1)) result (certs.key_in (part_of part.entry)) }
    ensures legal { IfOk result (λ o. IsTrue (keys.is_key (seen_key o.0) && keys.key_fits (seen_key o.0))) }
    ensures rest { IfOk result (λ o. end_of o.1 ≤ end_of part.entry) }
{
    are_bytes(part.bytes);
    key_in(part)
}

fn has_its_domain(parts: KeyParts) -> bool
    ensures { result ≡ (not (keys.is_elliptic (seen_key parts.entry).algorithm)
        || keys.has_domain (seen_key parts.entry)) }
{
    !parts.key.algorithm.is_elliptic() || !parts.key.domain.is_empty()
}

fn is_request_key(parts: KeyParts) -> bool
    requires { IsTrue (keys.is_key (seen_key parts) && keys.key_fits (seen_key parts)) }
    ensures { result ≡ texts.is_request_key (seen_key parts.entry) }
{
    has_its_domain(parts)
}

fn request_key_in<'a>(part: Part<'a>) -> Result<(KeyParts<'a>, Part<'a>), CvcRefusal>
    requires { end_of part < 2 ^ 32 }
    ensures exact { Reads (λ o. (seen_key o.0, part_of o.1)) result (order.request_key_in (part_of part.entry)) }
    ensures rest { IfOk result (λ o. end_of o.1 ≤ end_of part.entry) }
{
    let (key, rest) = legal_key_in(part)?;
    if !is_request_key(key) {
        return Err(CvcRefusal::Key);
    }
    Ok((key, rest))
}

// A `match` stands where `?` has no proof: the value holds a reference beside a part of the input.
fn request_body_in<'a>(part: Part<'a>) -> Result<RequestBodyView<'a>, CvcRefusal>
    requires { end_of part < 2 ^ 32 }
    ensures { Reads seen_request_body result (order.request_body_in (part_of part.entry)) }
{
    let rest = profile_in(part)?;
    let (authority, rest) = match authority_in(rest) {
        Ok(o) => o,
        Err(e) => return Err(e),
    };
    let (key, rest) = request_key_in(rest)?;
    let (holder, rest) = match reference_in(0x5f20, rest) {
        Ok(o) => o,
        Err(e) => return Err(e),
    };
    let extensions = extensions_in(rest)?;
    Ok(RequestBodyView {
        authority,
        key,
        holder,
        extensions,
    })
}

/// The body and the inner signature, whatever stands around them.
fn bare_in<'a>(part: Part<'a>) -> Result<BareView<'a>, CvcRefusal>
    requires { end_of part < 2 ^ 32 }
    ensures exact { (outer : Option Outer) →
        Reads (λ o. record { body = seen_request_body o.fields; inner = o.inner.now; outer = outer })
        result (order.request_in (part_of part.entry) outer) }
    ensures body { IfOk result (λ o. o.body.now ≡ texts.request_body_text (seen_request_body o.fields)) }
{
    let (content, body, inner) = signed_in(part)?;
    are_bytes(content.bytes);
    match request_body_in(content) {
        Ok(fields) => Ok(BareView {
            fields,
            body,
            inner,
        }),
        Err(e) => Err(e),
    }
}

/// The request whose object 7F21 is the whole input.
fn plain_in<'a>(whole: &'a [u8], part: Part<'a>) -> Result<RequestView<'a>, CvcRefusal>
    requires { end_of part < 2 ^ 32 }
    ensures exact { Reads seen_request result (order.request_in (part_of part.entry) None) }
    ensures whole { IfOk result (λ v. v.whole.now ≡ whole.now) }
    ensures body { IfOk result (λ v. v.body.now ≡ texts.request_body_text (seen_request v).body) }
    ensures bare { IfOk result (λ v. LiesIn whole.now v.bare.now (seen_request v) v.outer) }
{
    match bare_in(part) {
        Ok(view) => Ok(RequestView {
            whole,
            bare: whole,
            body: view.body,
            inner: view.inner,
            authority: view.fields.authority,
            holder: view.fields.holder,
            key: view.fields.key.key,
            cofactor: view.fields.key.cofactor,
            extensions: view.fields.extensions,
            outer: None,
        }),
        Err(e) => Err(e),
    }
}

/// The reference of the object 42 at the front, the whole object and the rest.
fn named_in<'a>(part: Part<'a>) -> Result<(Reference, &'a [u8], Part<'a>), CvcRefusal>
    requires { end_of part < 2 ^ 32 }
    ensures exact { Reads (λ o. (o.0, part_of o.2)) result (certs.reference_in 0x42 (part_of part.entry)) }
    ensures whole { IfOk result (λ o. o.1.now ≡ object 0x42 o.0) }
    ensures rest { IfOk result (λ o. end_of o.2 ≤ end_of part.entry) }
{
    let (content, whole, rest) = whole_object(0x42, part)?;
    let reference = read_reference(content.bytes)?;
    Ok((reference, whole, rest))
}

/// The bare request and what stands around it, in the content of an object 67.
fn authenticated_in<'a>(whole: &'a [u8], part: Part<'a>) -> Result<RequestView<'a>, CvcRefusal>
    requires { end_of part < 2 ^ 32 }
    ensures exact { Reads seen_request result (order.authenticated_in (part_of part.entry)) }
    ensures whole { IfOk result (λ v. v.whole.now ≡ whole.now) }
    ensures body { IfOk result (λ v. v.body.now ≡ texts.request_body_text (seen_request v).body) }
    ensures bare { IfOk result (λ v. LiesIn whole.now v.bare.now (seen_request v) v.outer) }
{
    let (content, bare, rest) = whole_object(0x7f21, part)?;
    let (reference, named, rest) = match named_in(rest) {
        Ok(o) => o,
        Err(e) => return Err(e),
    };
    let (signature, rest) = signature_in(rest)?;
    nothing_in(rest)?;
    are_bytes(content.bytes);
    match bare_in(content) {
        Ok(inside) => Ok(RequestView {
            whole,
            bare,
            body: inside.body,
            inner: inside.inner,
            authority: inside.fields.authority,
            holder: inside.fields.holder,
            key: inside.fields.key.key,
            cofactor: inside.fields.key.cofactor,
            extensions: inside.fields.extensions,
            outer: Some(OuterView {
                reference,
                named,
                signature,
            }),
        }),
        Err(e) => Err(e),
    }
}

fn whole_request(bytes: &[u8]) -> Result<RequestView, CvcRefusal>
    ensures exact { Reads seen_request result (order.read_request bytes.now) }
    ensures whole { IfOk result (λ v. v.whole.now ≡ bytes.now) }
    ensures body { IfOk result (λ v. v.body.now ≡ texts.request_body_text (seen_request v).body) }
    ensures bare { IfOk result (λ v. LiesIn bytes.now v.bare.now (seen_request v) v.outer) }
{
    if 2304 < bytes.len() {
        return Err(CvcRefusal::TooLong);
    }
    let (tag, content, rest) = object_in(Part { place: 0, bytes })?;
    if tag != 0x7f21 && tag != 0x67 {
        return Err(CvcRefusal::Object {
            offset: 0,
            fault: ObjectFault::OtherTag,
        });
    }
    nothing_in(rest)?;
    if tag == 0x7f21 {
        plain_in(bytes, content)
    } else {
        authenticated_in(bytes, content)
    }
}

/// The request as it lies in the input. It takes no memory.
///
/// The inner signature is over `body`, and the outer one over `bare` and behind it `named`, so that both are verified
/// over the bytes that came.
///
/// The refusal is that of the first step that fails, in this order: the input's size (`TooLong`); an object 7F21 or 67
/// (`Object`) with nothing behind it (`Trailing`). In 67 come 7F21 (`Object`), 42 (`Reference`) and the outer signature
/// 5F37 (`Object`), each judged before the next, with nothing behind them (`Trailing`). Then the content of that 7F21
/// is read as a certificate's: the body 7F4E and the inner signature, then the body's objects 5F29 (`Profile`), 42
/// where it is there (`Reference`), 7F49 (`Key`), 5F20 (`Reference`) and, where bytes are left, 65 with nothing behind
/// it (`Trailing`).
pub fn view_request(bytes: &[u8]) -> Result<RequestView, CvcRefusal>
    ensures exact { Reads seen_request result (order.read_request bytes.now) }
    ensures found { IfOk result (λ v. IsRequestView bytes.now v) }
    ensures only { (r : Request) → IsRequest r bytes.now → IsOkAnd result (λ v. seen_request v ≡ r) }
{
    are_bytes(bytes);
    whole_request(bytes)
}
