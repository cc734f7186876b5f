// The making of a request: a new key, the body that is signed with it, and the signature around it.
ghost use Rattle.std.specs.Prelude.{◌≡◌, ◌≤◌, ◌++◌, Some, IfOk, IfSome, IsSome, IsTrue, OnErr, length};
ghost use Rattle.std.specs.Option.{option_copied};
ghost use Rattle.holder_reference.specs.Reference.{is_reference};
ghost use Rattle.signature_provider.specs.Provider.{MakesKey, public_key};
ghost use Rattle.cvc_grammar.specs.Object.{object};
ghost use Rattle.cvc_grammar.specs.Request.{is_request_key};
ghost use Rattle.holder_core.specs.Faults.{NoneMissing};
ghost use Rattle.holder_core.specs.Requesting.{home_signer, IsComposable, IsSignedBody, MaySignBody, IsBareText, IsBare, MayBeginBare, Finishes, MayFinish, IsComposed, MayBegin};
ghost use Rattle.holder_core.specs.Signers.{own_signer, has_legal_form, missing_of, form_of as form_like};
ghost use Rattle.holder_core.specs.Signing.{ProviderCaused, SignsNoBody, StaysTrue};

use crate::HolderFault;
use crate::key_form::form_of;
use crate::signing::{make_key, sign};
use cvc_grammar::{
    RequestBody, finish_authenticated, finish_request, push_signer, write_request_body,
};
use eac_base::{NoMemory, Octets};
use holder_reference::Reference;
use keeper::{Part, Row};
use signature_provider::{Key, SignatureProvider};
use std::alloc::Global;

/// The text of a request, with its new key.
#[derive(Debug, Drop)]
pub struct Composed {
    pub bytes: Octets,
    pub key: Key,
}

// A reference is in its grammar, as its type keeps.
fn stands(reference: &Reference)
    ensures { IsTrue (is_reference reference.now) }
{
    reference.as_slice();
}

fn new_key<P: SignatureProvider>(
    alloc: Global,
    like: &Key,
    provider: &mut P,
) -> Result<Key, HolderFault>
    requires { IsTrue (has_legal_form like.now) }
    ensures made { IfOk result (MakesKey (P.holds provider.old) (P.holds provider.new) (form_like like.now)) }
    ensures legal { IfOk result (λ key. IsTrue (is_request_key key)) }
    ensures signed { P.signed provider.new ≡ P.signed provider.old }
    ensures provider { StaysTrue (P.says provider.old) (P.says provider.new) (P.holds provider.old)
        (P.holds provider.new) (P.signed provider.old) (P.signed provider.new) }
    ensures cause { ProviderCaused NoneMissing (P.faults provider.old) (P.faults provider.new) result }
{
    let Ok(form) = form_of(alloc, like) else {
        return Err(HolderFault::NoMemory);
    };
    make_key(alloc, &form, provider)
}

// The text of a bare request with this body, signed with its own new key, which is held.
fn sign_body<P: SignatureProvider>(
    alloc: Global,
    body: &RequestBody,
    provider: &mut P,
) -> Result<Octets, HolderFault>
    requires legal { IsComposable body.now }
    requires held { IsTrue (P.holds provider.old (public_key body.now.key)) }
    ensures made { IfOk result (IsSignedBody (P.says provider.new) (P.signed provider.old, P.signed provider.new)
        body.now) }
    ensures broken { OnErr result (MaySignBody (P.says provider.new) (P.signed provider.old, P.signed provider.new)
        body.now) }
    ensures signed { SignsNoBody (P.signed provider.old, P.signed provider.new) }
    ensures provider { StaysTrue (P.says provider.old) (P.says provider.new) (P.holds provider.old)
        (P.holds provider.new) (P.signed provider.old) (P.signed provider.new) }
    ensures cause { ProviderCaused NoneMissing (P.faults provider.old) (P.faults provider.new) result }
{
    let Ok(text) = write_request_body(alloc, body) else {
        return Err(HolderFault::NoMemory);
    };
    let inner = sign(alloc, &body.key, body.holder, text.as_slice(), provider)?;
    match finish_request(alloc, text.as_slice(), inner.as_slice()) {
        Ok(bytes) => Ok(bytes),
        Err(_) => Err(HolderFault::NoMemory),
    }
}

// A bare request for a new key like this one, under this reference.
fn compose_bare<P: SignatureProvider>(
    alloc: Global,
    reference: Reference,
    authority: Reference,
    like: &Key,
    provider: &mut P,
) -> Result<Composed, HolderFault>
    requires { IsTrue (has_legal_form like.now) }
    ensures made { IfOk result (IsBare (P.says provider.new) (P.holds provider.old) (P.holds provider.new)
        (P.signed provider.old, P.signed provider.new) reference authority like.now) }
    ensures broken { OnErr result (MayBeginBare (P.says provider.new) (P.holds provider.old) (P.holds provider.new)
        (P.signed provider.old, P.signed provider.new) reference authority like.now) }
    ensures signed { SignsNoBody (P.signed provider.old, P.signed provider.new) }
    ensures provider { StaysTrue (P.says provider.old) (P.says provider.new) (P.holds provider.old)
        (P.holds provider.new) (P.signed provider.old) (P.signed provider.new) }
    ensures cause { ProviderCaused NoneMissing (P.faults provider.old) (P.faults provider.new) result }
{
    stands(&reference);
    stands(&authority);
    let key = new_key(alloc, like, provider)?;
    let body = RequestBody {
        authority: Some(authority),
        key,
        holder: reference,
        extensions: None,
    };
    let bytes = sign_body(alloc, &body, provider)?;
    Ok(Composed {
        bytes,
        key: body.key,
    })
}

// The bare request with the reference that signs it behind it, which is what an outer signature is over.
fn text_to_sign(bare: Octets, reference: &Reference) -> Result<Octets, NoMemory>
    ensures text { IfOk result (λ text. text ≡ bare ++ object 0x42 reference.now) }
    ensures legal { IfOk result (λ _. IsTrue (is_reference reference.now)) }
{
    let mut text = bare;
    push_signer(&mut text, reference)?;
    Ok(text)
}

// The bare request with an outer part by this own row, which has its certificate.
fn sign_outer<P: SignatureProvider>(
    alloc: Global,
    bare: Octets,
    row: &Row,
    provider: &mut P,
) -> Result<Octets, HolderFault>
    requires text { IsBareText bare }
    requires size { length bare ≤ 1700 }
    requires own { IsSome (own_signer row.now) }
    ensures made { IfOk result (Finishes (P.says provider.new) (P.holds provider.new)
        (P.signed provider.old, P.signed provider.new) bare (own_signer row.now)) }
    ensures broken { OnErr result (MayFinish (P.holds provider.new) (P.signed provider.old, P.signed provider.new)
        bare (own_signer row.now)) }
    ensures signed { SignsNoBody (P.signed provider.old, P.signed provider.new) }
    ensures provider { StaysTrue (P.says provider.old) (P.says provider.new) (P.holds provider.old)
        (P.holds provider.new) (P.signed provider.old) (P.signed provider.new) }
    ensures cause { ProviderCaused (λ r. missing_of (P.holds provider.old) (own_signer row.now) ≡ Some r)
        (P.faults provider.old) (P.faults provider.new) result }
{
    let Part::Own(own) = &row.part else {
        unreachable!();
    };
    let Ok(text) = text_to_sign(bare, &row.reference) else {
        return Err(HolderFault::NoMemory);
    };
    let outer = sign(alloc, &own.key, row.reference, text.as_slice(), provider)?;
    match finish_authenticated(alloc, text.as_slice(), outer.as_slice()) {
        Ok(bytes) => Ok(bytes),
        Err(_) => Err(HolderFault::NoMemory),
    }
}

// The bare request, or the one with an outer part where an own row is to sign it.
fn finish<P: SignatureProvider>(
    alloc: Global,
    bare: Octets,
    outer: Option<&Row>,
    provider: &mut P,
) -> Result<Octets, HolderFault>
    requires text { IsBareText bare }
    requires size { length bare ≤ 1700 }
    requires own { IfSome (option_copied outer) (λ row. IsSome (own_signer row)) }
    ensures made { IfOk result (Finishes (P.says provider.new) (P.holds provider.new)
        (P.signed provider.old, P.signed provider.new) bare (home_signer (option_copied outer.entry))) }
    ensures broken { OnErr result (MayFinish (P.holds provider.new) (P.signed provider.old, P.signed provider.new)
        bare (home_signer (option_copied outer.entry))) }
    ensures signed { SignsNoBody (P.signed provider.old, P.signed provider.new) }
    ensures provider { StaysTrue (P.says provider.old) (P.says provider.new) (P.holds provider.old)
        (P.holds provider.new) (P.signed provider.old) (P.signed provider.new) }
    ensures cause { ProviderCaused (λ r. missing_of (P.holds provider.old) (home_signer (option_copied outer.entry)) ≡
        Some r) (P.faults provider.old) (P.faults provider.new) result }
{
    match outer {
        Some(row) => sign_outer(alloc, bare, row, provider),
        None => Ok(bare),
    }
}

/// Makes the text of a request for a new key like this one, under this reference, with an outer part where an own row
/// is to sign it.
pub fn compose<P: SignatureProvider>(
    alloc: Global,
    reference: Reference,
    authority: Reference,
    like: &Key,
    outer: Option<&Row>,
    provider: &mut P,
) -> Result<Composed, HolderFault>
    requires form { IsTrue (has_legal_form like.now) }
    requires own { IfSome (option_copied outer) (λ row. IsSome (own_signer row)) }
    ensures made { IfOk result (IsComposed (P.says provider.new) (P.holds provider.old) (P.holds provider.new)
        (P.signed provider.old, P.signed provider.new) reference authority like.now (home_signer
        (option_copied outer.entry))) }
    ensures broken { OnErr result (MayBegin (P.says provider.new) (P.holds provider.old) (P.holds provider.new)
        (P.signed provider.old, P.signed provider.new) reference authority like.now (home_signer
        (option_copied outer.entry))) }
    ensures signed { SignsNoBody (P.signed provider.old, P.signed provider.new) }
    ensures provider { StaysTrue (P.says provider.old) (P.says provider.new) (P.holds provider.old)
        (P.holds provider.new) (P.signed provider.old) (P.signed provider.new) }
    ensures cause { ProviderCaused (λ r. missing_of (P.holds provider.old) (home_signer (option_copied outer.entry)) ≡
        Some r) (P.faults provider.old) (P.faults provider.new) result }
{
    let bare = compose_bare(alloc, reference, authority, like, provider)?;
    let Composed { bytes, key } = bare;
    let bytes = finish(alloc, bytes, outer, provider)?;
    Ok(Composed { bytes, key })
}
