// An own certificate that is due, but for its key.
ghost use Rattle.std.specs.Prelude.{◌≡◌, IfSome, IsTrue};
ghost use Rattle.holder_core.specs.Signers.{wanted_in, has_legal_form};
ghost use Rattle.holder_core.specs.declared.newest.Wanted.TheVariants as wanted;
ghost use Rattle.cvca_desk.specs.Linking.{link_signer};
ghost use Rattle.cvca_desk.specs.OwnCertificate as words;

use crate::terms::Terms;
use chat_rights::{Kind, Role, Template};
use cv_dates::Day;
use cvc_grammar::CertBody;
use holder_core::{Wanted, has_legal_form, newest_row};
use holder_reference::Reference;
use keeper::{Part, Row, Settled};
use signature_provider::{Key, KeyForm};
use std::marker::Model;

/// An own row that has its certificate and signs with its key.
#[derive(Debug, Drop)]
pub struct Signing<'a> {
    pub reference: Reference,
    pub key: &'a Key,
    pub settled: &'a Settled,
}

impl<'a> Model for Signing<'a> {
    ghost use Rattle.holder_core.specs.Signers.{Signer};

    ghost Value = { Signer };

    ghost view = { λ s. record { reference = s.reference; key = s.key.now; settled = s.settled.now } };
}

/// An own certificate that is due, but for its key.
#[derive(Debug, Drop)]
pub struct Due<'a> {
    pub terms: Terms,
    /// What its key is made like.
    pub form: KeyForm,
    /// Its holder reference.
    pub reference: Reference,
    /// Who signs. The first certificate is signed by its own key.
    pub by: Option<Signing<'a>>,
    /// Its effective and its expiration date.
    pub days: (Day, Day),
}

// The row, where it has its certificate and a key that a new one can be made like.
fn signing_of<'a>(row: &'a Row) -> Option<Signing<'a>>
    ensures signer { result ≡ wanted_in wanted.LikeNew row.now }
    ensures fit { IfSome result (λ s. IsTrue (has_legal_form s.key)) }
{
    let Part::Own(own) = &row.part else {
        return None;
    };
    let Some(settled) = &own.settled else {
        return None;
    };
    if !has_legal_form(&own.key) {
        return None;
    }
    Some(Signing {
        reference: row.reference,
        key: &own.key,
        settled,
    })
}

/// The newest own row with a key that a new one can be made like.
pub fn newest_signing<'a>(own: &'a [Row]) -> Option<Signing<'a>>
    ensures signer { result ≡ link_signer own.now }
    ensures fit { IfSome result (λ s. IsTrue (has_legal_form s.key)) }
{
    let row = newest_row(own, &Wanted::LikeNew)?;
    signing_of(row)
}

/// The reference of the key that signs.
pub fn issuer_of(due: &Due) -> Reference
    ensures { result ≡ words.issuer_of due.now.reference due.now.by }
{
    match &due.by {
        Some(signing) => signing.reference,
        None => due.reference,
    }
}

/// An authority's role, with the rights of the terms.
pub fn own_template(due: &Due) -> Template
    ensures { result ≡ words.own_template due.now }
{
    Template {
        kind: Kind::Inspection,
        role: Role::Cvca,
        rights: due.terms.rights,
    }
}

/// The body for this key.
pub fn own_body(due: &Due, key: Key) -> CertBody
    ensures { result ≡ words.own_body due.now key }
{
    CertBody {
        authority: issuer_of(due),
        key,
        holder: due.reference,
        template: own_template(due),
        from: due.days.0,
        until: due.days.1,
        extensions: None,
    }
}
