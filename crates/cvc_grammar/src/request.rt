// Certificate requests as values of their own, and as they lie in an input.
pub mod copy;
pub mod view;
pub mod writing;

use eac_base::Octets;
use holder_reference::Reference;
use signature_provider::{Key, KeyView};

/// What is asked for: a certificate for this key under this reference (BSI TR-03110-3, certificate requests).
#[derive(Debug, Drop)]
pub struct RequestBody {
    /// The reference of the key that is expected to certify (object 42), where the body names one.
    pub authority: Option<Reference>,
    /// The new key (object 7F49). An elliptic key has its domain here.
    pub key: Key,
    /// The reference of the new key (object 5F20).
    pub holder: Reference,
    /// The content of the object 65, where the body has one.
    pub extensions: Option<Octets>,
}

/// What makes a request an authenticated one: a signature by a key that is certified already.
#[derive(Debug, Drop)]
pub struct Outer {
    /// The reference of the key that signs (object 42).
    pub reference: Reference,
    /// Over the whole bare request and the whole object of the reference (content of the object 5F37).
    pub signature: Octets,
}

/// A request, bare or authenticated.
#[derive(Debug, Drop)]
pub struct Request {
    pub body: RequestBody,
    /// By the new key, over the whole body object (content of the object 5F37).
    pub inner: Octets,
    pub outer: Option<Outer>,
}

/// What stands around a bare request, as it lies in an input.
#[derive(Clone, Copy, Debug)]
pub struct OuterView<'a> {
    pub reference: Reference,
    /// The whole object 42 of the reference: behind the bare request, what the outer signature is over.
    pub named: &'a [u8],
    /// The content of the outer object 5F37.
    pub signature: &'a [u8],
}

/// A request as it lies in the input that it was read from.
#[derive(Clone, Copy, Debug)]
pub struct RequestView<'a> {
    /// The input.
    pub whole: &'a [u8],
    /// The whole object 7F21: the request without what stands around it.
    pub bare: &'a [u8],
    /// The whole body object 7F4E: what the inner signature is over.
    pub body: &'a [u8],
    /// The content of the inner object 5F37.
    pub inner: &'a [u8],
    pub authority: Option<Reference>,
    pub holder: Reference,
    pub key: KeyView<'a>,
    /// The encoding of the key's object 87, or empty.
    pub cofactor: &'a [u8],
    /// The content of the object 65, where the body has one.
    pub extensions: Option<&'a [u8]>,
    pub outer: Option<OuterView<'a>>,
}
