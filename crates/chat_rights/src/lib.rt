//! Certificate holder authorization templates: what a certificate's holder is, and which access rights it may pass on.
//!
//! A template is the content of an object 7F4C (BSI TR-03110-3, appendix C): the identifier of a type of terminal, and
//! one byte of a role and of rights. Rights are sets of bits. Bit 0 is reading DG3 (fingerprints), bit 1 reading DG4
//! (iris).
//!
//! `read_template` reads such a content, or answers the first test that fails, and `put_template` writes it: each
//! template has one content, as the functions of `laws` say. `meet` holds what two sets of rights share, and
//! `rights_text` shows rights to people. No call takes memory.
//!
//! Which role may certify which one, and whose rights are met along a chain, is left to the layers above.
#![tactic(auto)]

ghost use Rattle.std.specs.Prelude.{◌≡◌};
ghost use Rattle.chat_rights.specs.Template.{refusal_number};

mod kinds;
pub mod laws;
mod reading;
mod rights;
mod roles;
#[cfg(test)]
mod tests;
mod writing;

pub use reading::read_template;
pub use rights::{Rights, RightsText, meet, rights_text};
use std::error::Error;
use std::fmt;
pub use writing::put_template;

/// A type of terminal.
#[derive(Clone, Copy, Debug, PartialEq, Eq)]
pub enum Kind {
    /// An inspection system.
    Inspection,
}

/// What a holder is in the hierarchy of certificates.
#[derive(Clone, Copy, Debug, PartialEq, Eq)]
pub enum Role {
    /// A country verifying certification authority.
    Cvca,
    /// A document verifier of the authority's own country.
    Domestic,
    /// A document verifier of another country.
    Foreign,
    /// A terminal.
    Terminal,
}

/// What a certificate says of its holder.
#[derive(Clone, Copy, Debug, PartialEq, Eq)]
pub struct Template {
    pub kind: Kind,
    pub role: Role,
    pub rights: Rights,
}

/// Why a content is no template: the first test that fails.
#[derive(Clone, Copy, Debug, PartialEq, Eq)]
pub enum TemplateRefusal {
    /// It isn't an object 06 followed by an object 53 and nothing else.
    Form,
    /// The identifier is that of no known type of terminal.
    UnknownType,
    /// The content of 53 hasn't the width of the type's role and rights.
    Width,
}

impl TemplateRefusal {
    /// 1 to 3, in the order of the variants.
    pub fn number(&self) -> u8
        ensures { result ≡ refusal_number self.now }
    {
        match self {
            TemplateRefusal::Form => 1,
            TemplateRefusal::UnknownType => 2,
            TemplateRefusal::Width => 3,
        }
    }
}

impl fmt::Display for TemplateRefusal {
    fn fmt<W: fmt::Write>(&self, f: &mut fmt::Formatter<W>) -> fmt::Result {
        f.write_str(match self {
            TemplateRefusal::Form => "not an object 06 followed by an object 53 alone",
            TemplateRefusal::UnknownType => "the identifier names no known type of terminal",
            TemplateRefusal::Width => "role and rights have another width than their type's",
        })
    }
}

impl Error for TemplateRefusal {}
