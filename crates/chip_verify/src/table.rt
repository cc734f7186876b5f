// The table of refusals, a row a function.
ghost use Rattle.std.specs.Prelude.{◌≡◌, Some, not, ◌&&◌, nat_lt, nat_le};
ghost use Rattle.std.specs.Str.{bytes_eq};
ghost use Rattle.chip_verify.specs.Refusals as words;
ghost use Rattle.chip_verify.specs.Refusals.{sort_of, until_of};
ghost use Rattle.chip_verify.specs.Views.{seen_body, seen_issuer};

use crate::issuer::Voucher;
use crate::same::is_same_kind;
use crate::{ChipState, ImportRefusal};
use chat_rights::Role;
use cvc_grammar::CertView;

pub fn is_link(role: Role) -> bool
    ensures { result ≡ words.is_link (sort_of role) }
{
    match role {
        Role::Cvca => true,
        Role::Domestic | Role::Foreign | Role::Terminal => false,
    }
}

fn has_wrong_role(cert: &CertView, issuer: Voucher) -> bool
    ensures { result ≡ words.wrong_role (seen_body cert.now) (seen_issuer issuer.entry)
        (sort_of cert.now.template.role) }
{
    match cert.template.role {
        Role::Cvca => !issuer.is_point() || cert.authority.is(&cert.holder),
        Role::Domestic | Role::Foreign => !issuer.is_point(),
        Role::Terminal => issuer.is_point(),
    }
}

fn has_foreign_key(cert: &CertView, issuer: Voucher) -> bool
    ensures { result ≡ words.foreign_key (seen_body cert.now) (seen_issuer issuer.entry) }
{
    !cert.key.domain.is_empty() || cert.key.algorithm != issuer.key().algorithm
}

// An elliptic key that neither has a domain nor can take its issuer's.
fn lacks_domain(cert: &CertView, issuer: Voucher) -> bool
    ensures { result ≡ words.lacks_domain (seen_body cert.now) (seen_issuer issuer.entry) }
{
    cert.key.algorithm.is_elliptic()
        && cert.key.domain.is_empty()
        && !issuer.key().algorithm.is_elliptic()
}

fn has_wrong_key(cert: &CertView, issuer: Voucher) -> bool
    ensures { result ≡ words.wrong_key (seen_body cert.now) (seen_issuer issuer.entry)
        (sort_of cert.now.template.role) }
{
    match cert.template.role {
        Role::Cvca => lacks_domain(cert, issuer),
        Role::Domestic | Role::Foreign | Role::Terminal => has_foreign_key(cert, issuer),
    }
}

fn issuer_has_expired(state: &ChipState, cert: &CertView, issuer: Voucher) -> bool
    ensures { result ≡ (not (words.is_link (sort_of cert.now.template.role))
        && nat_lt (until_of (seen_issuer issuer.entry)) state.now.day) }
{
    !is_link(cert.template.role) && issuer.until().number() < state.day.number()
}

fn has_expired(state: &ChipState, cert: &CertView) -> bool
    ensures { result ≡ (not (words.is_link (sort_of cert.now.template.role)) && nat_lt cert.now.until state.now.day) }
{
    !is_link(cert.template.role) && cert.until.number() < state.day.number()
}

fn branches_off(state: &ChipState, cert: &CertView) -> bool
    ensures { result ≡ (words.is_link (sort_of cert.now.template.role)
        && not (bytes_eq state.now.newest.reference cert.now.authority)) }
{
    is_link(cert.template.role) && !state.newest.reference.is(&cert.authority)
}

fn is_not_later(state: &ChipState, cert: &CertView) -> bool
    ensures { result ≡ (words.is_link (sort_of cert.now.template.role) && nat_le cert.now.from state.now.newest.from) }
{
    is_link(cert.template.role) && cert.from.number() <= state.newest.from.number()
}

/// The first row that applies to a certificate under this issuer, but the signature.
pub fn first_refusal(state: &ChipState, cert: &CertView, issuer: Voucher) -> Option<ImportRefusal>
    ensures { result ≡ words.first_refusal (sort_of cert.now.template.role) state.now (seen_body cert.now)
        (Some (seen_issuer issuer.entry)) }
{
    if !is_same_kind(cert.template.kind, issuer.kind()) {
        Some(ImportRefusal::TypeDiffers)
    } else if has_wrong_role(cert, issuer) {
        Some(ImportRefusal::Role)
    } else if has_wrong_key(cert, issuer) {
        Some(ImportRefusal::Parameters)
    } else if issuer_has_expired(state, cert, issuer) {
        Some(ImportRefusal::IssuerExpired)
    } else if has_expired(state, cert) {
        Some(ImportRefusal::Expired)
    } else if branches_off(state, cert) {
        Some(ImportRefusal::Branch)
    } else if is_not_later(state, cert) {
        Some(ImportRefusal::NotLater)
    } else {
        None
    }
}
