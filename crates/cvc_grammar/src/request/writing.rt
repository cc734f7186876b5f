// The texts of requests.
ghost use Rattle.std.specs.Prelude.{◌≡◌, ◌++◌, ◌<◌, ◌≤◌, length, Some, IsTrue, IfOk, IfSome, OnOk};
ghost use Rattle.holder_reference.specs.Reference.{is_reference};
ghost use Rattle.tlv_core.specs.Object.{object};
ghost use Rattle.cvc_grammar.specs.Certificate.{is_signature, signature_object};
ghost use Rattle.cvc_grammar.specs.Request as texts;
ghost use Rattle.cvc_grammar.specs.Request.{HasLegalReferences, IsLegalRequestBody, IsLegalBare};
ghost use Rattle.cvc_grammar.specs.Request.{IsLegalRequest, IsRequest};

use crate::extensions::push_extensions;
use crate::key::writing::push_key;
use crate::object_writing::{push_object, write_object};
use crate::signed::write_signed;
use crate::{Outer, Request, RequestBody};
use eac_base::{NoMemory, Octets};
use holder_reference::Reference;
use std::alloc::Global;

fn push_authority(out: &mut Octets, authority: &Option<Reference>) -> Result<(), NoMemory>
    ensures text { OnOk result (out.new ≡ out.old ++ texts.authority_text authority.now) }
    ensures legal { OnOk result (IfSome authority.now (λ a. IsTrue (is_reference a))) }
{
    match authority {
        None => Ok(()),
        Some(reference) => push_object(out, 0x42, reference.as_slice()),
    }
}

fn push_request_body(out: &mut Octets, body: &RequestBody) -> Result<(), NoMemory>
    requires key { IsTrue (texts.is_request_key body.now.key) }
    requires size { length (texts.request_body_content body.now) < 65536 }
    ensures text { OnOk result (out.new ≡ out.old ++ texts.request_body_content body.now) }
    ensures legal { OnOk result (HasLegalReferences body.now) }
{
    push_object(out, 0x5f29, &[0x00])?;
    push_authority(out, &body.authority)?;
    push_key(out, &body.key)?;
    push_object(out, 0x5f20, body.holder.as_slice())?;
    push_extensions(out, &body.extensions)
}

/// The whole object 7F4E of a request's body, which the inner signature is over.
pub fn write_request_body(alloc: Global, body: &RequestBody) -> Result<Octets, NoMemory>
    requires { IsLegalRequestBody body.now }
    ensures text { IfOk result (λ o. o ≡ texts.request_body_text body.now) }
    ensures legal { IfOk result (λ _. HasLegalReferences body.now) }
{
    let mut content = Octets::new(alloc);
    push_request_body(&mut content, body)?;
    write_object(alloc, 0x7f4e, content.as_slice())
}

/// The whole object 7F21 of the bare request whose body's whole object 7F4E and whose inner signature these are. So what
/// was signed stands in the request as it is, and is not written again.
pub fn finish_request(alloc: Global, body: &[u8], inner: &[u8]) -> Result<Octets, NoMemory>
    requires { length (object 0x7f21 (body.now ++ signature_object inner.now)) ≤ texts.longest_request }
    ensures { IfOk result (λ o. o ≡ object 0x7f21 (body.now ++ signature_object inner.now)) }
{
    write_signed(alloc, 0x7f21, body, inner)
}

/// The whole object 42 of the reference that signs behind a bare request, which makes it what an outer signature is over.
/// Where memory is wanting a front of the object may stand there.
pub fn push_signer(bare: &mut Octets, reference: &Reference) -> Result<(), NoMemory>
    ensures text { OnOk result (bare.new ≡ bare.old ++ object 0x42 reference.now) }
    ensures legal { OnOk result (IsTrue (is_reference reference.now)) }
{
    push_object(bare, 0x42, reference.as_slice())
}

/// The whole object 67 of the authenticated request whose outer signature is this one, over what [`push_signer`] made.
pub fn finish_authenticated(alloc: Global, signed: &[u8], outer: &[u8]) -> Result<Octets, NoMemory>
    requires { length (object 0x67 (signed.now ++ signature_object outer.now)) ≤ texts.longest_request }
    ensures { IfOk result (λ o. o ≡ object 0x67 (signed.now ++ signature_object outer.now)) }
{
    write_signed(alloc, 0x67, signed, outer)
}

/// The whole object 7F21 of a request: the request without what stands around it. An outer signature is over these
/// bytes and the whole object 42 of the reference that signs.
pub fn write_signed_part(alloc: Global, request: &Request) -> Result<Octets, NoMemory>
    requires { IsLegalBare request.now }
    ensures text { IfOk result (λ o. o ≡ texts.bare_text request.now) }
    ensures legal { IfOk result (λ _. HasLegalReferences request.now.body) }
{
    let body = write_request_body(alloc, &request.body)?;
    finish_request(alloc, body.as_slice(), request.inner.as_slice())
}

fn write_with_outer(alloc: Global, request: &Request, outer: &Outer) -> Result<Octets, NoMemory>
    requires key { IsTrue (texts.is_request_key request.now.body.key) }
    requires inner { IsTrue (is_signature request.now.inner) }
    requires size { length (texts.with_outer request.now (Some outer.now)) ≤ texts.longest_request }
    ensures text { IfOk result (λ o. o ≡ texts.with_outer request.now (Some outer.now)) }
    ensures body { IfOk result (λ _. HasLegalReferences request.now.body) }
    ensures outer { IfOk result (λ _. IsTrue (is_reference outer.now.reference)) }
{
    let mut signed = write_signed_part(alloc, request)?;
    push_signer(&mut signed, &outer.reference)?;
    finish_authenticated(alloc, signed.as_slice(), outer.signature.as_slice())
}

/// The whole object of a request: 67 where it has an outer part, else 7F21.
pub fn write_request(alloc: Global, request: &Request) -> Result<Octets, NoMemory>
    requires { IsLegalRequest request.now }
    ensures { IfOk result (λ o. IsRequest request.now o) }
{
    match &request.outer {
        None => write_signed_part(alloc, request),
        Some(outer) => write_with_outer(alloc, request, outer),
    }
}
