// Certificates as values of their own, and as they lie in an input.
pub mod copy;
pub mod view;
pub mod writing;

use chat_rights::Template;
use cv_dates::Day;
use eac_base::Octets;
use holder_reference::Reference;
use signature_provider::{Key, KeyView};

/// What a certificate says: who certifies which key, whose, with which rights and for how long
/// (BSI TR-03110-3, certificate profile).
#[derive(Debug, Drop)]
pub struct CertBody {
    /// The reference of the key that signs (object 42).
    pub authority: Reference,
    /// The certified key (object 7F49).
    pub key: Key,
    /// The reference of the certified key (object 5F20).
    pub holder: Reference,
    /// The holder's role and rights (object 7F4C).
    pub template: Template,
    /// The effective date (object 5F25).
    pub from: Day,
    /// The expiration date (object 5F24). Nothing here says that it comes after the effective date.
    pub until: Day,
    /// The content of the object 65, where the body has one.
    pub extensions: Option<Octets>,
}

/// A body and the signature over its whole object.
#[derive(Debug, Drop)]
pub struct Cert {
    pub body: CertBody,
    /// The content of the object 5F37: 1 to 512 bytes in a certificate that was read.
    pub signature: Octets,
}

/// A certificate as it lies in the input that it was read from.
#[derive(Clone, Copy, Debug)]
pub struct CertView<'a> {
    /// The input.
    pub whole: &'a [u8],
    /// The whole body object 7F4E: what the signature is over.
    pub body: &'a [u8],
    /// The content of the object 5F37.
    pub signature: &'a [u8],
    pub authority: Reference,
    pub holder: Reference,
    pub key: KeyView<'a>,
    /// The encoding of the key's object 87, or empty.
    pub cofactor: &'a [u8],
    pub template: Template,
    pub from: Day,
    pub until: Day,
    /// The content of the object 65, where the body has one.
    pub extensions: Option<&'a [u8]>,
}
