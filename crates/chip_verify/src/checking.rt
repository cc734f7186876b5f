// What a certificate is before its signature is looked at.
ghost use Rattle.std.specs.Prelude.{◌≡◌, ◌↔◌};
ghost use Rattle.chip_verify.specs.Refusals as words;
ghost use Rattle.chip_verify.specs.Refusals.{IsOwn};
ghost use Rattle.chip_verify.specs.Views.{seen_body, Weighs};

use crate::issuer::{Voucher, issuer_named};
use crate::same::is_same_template;
use crate::table::{first_refusal, is_link};
use crate::{Checked, ChipKey, ChipState, ImportRefusal, Session, TrustPoint};
use cvc_grammar::CertView;
use eac_base::is_same;
use signature_provider::KeyView;

/// What a certificate is found to be, with its issuer where it may be taken.
#[derive(Clone, Copy)]
pub enum Weighed<'a> {
    Held,
    Refused(ImportRefusal),
    Ask(Voucher<'a>),
}

// The key is the point's, and names no other domain.
fn is_key_of(key: KeyView, kept: &ChipKey) -> bool
    ensures { result ≡ words.same_kept_key key.entry.algorithm key.entry.domain.now key.entry.point.now kept.now }
{
    key.algorithm == kept.algorithm
        && is_same(key.point, kept.point.as_slice())
        && (key.domain.is_empty() || is_same(key.domain, kept.domain.as_slice()))
}

fn is_of(cert: &CertView, newest: &TrustPoint) -> bool
    ensures { result ≡ words.is_of newest.now (seen_body cert.now) }
{
    is_link(cert.template.role)
        && cert.holder.is(&newest.reference)
        && is_same_template(cert.template, newest.template)
        && cert.from.number() == newest.from.number()
        && cert.until.number() == newest.until.number()
        && is_key_of(cert.key, &newest.key)
}

/// What a certificate is found to be.
pub fn weigh<'a>(state: &'a ChipState, session: &'a Session, cert: &CertView) -> Weighed<'a>
    ensures { Weighs state.now session.now (seen_body cert.now) result }
{
    if is_of(cert, &state.newest) {
        return Weighed::Held;
    }
    match issuer_named(state, session, &cert.authority) {
        None => Weighed::Refused(ImportRefusal::NoIssuer),
        Some(issuer) => match first_refusal(state, cert, issuer) {
            Some(refusal) => Weighed::Refused(refusal),
            None => Weighed::Ask(issuer),
        },
    }
}

/// What a certificate is found to be by all rows of the table but the last, before its signature is looked at.
///
/// It is `Held` where all that a chip keeps of it is the newest trust point's, its domain being absent or equal. Else
/// the first row that applies refuses it. Else it asks for the signature.
pub fn check(state: &ChipState, session: &Session, cert: &CertView) -> Checked
    ensures held { (result ≡ Checked.Held) ↔ IsOwn state.now.newest (seen_body cert.now) }
    ensures exact { result ≡ words.checked state.now session.now (seen_body cert.now) }
{
    match weigh(state, session, cert) {
        Weighed::Held => Checked::Held,
        Weighed::Refused(refusal) => Checked::Refused(refusal),
        Weighed::Ask(_) => Checked::Ask,
    }
}
