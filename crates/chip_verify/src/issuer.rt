// Who vouches for a certificate.
ghost use Rattle.std.specs.Prelude.{◌≡◌, option_map};
ghost use Rattle.chip_verify.specs.Refusals as words;
ghost use Rattle.chip_verify.specs.Views.{seen_issuer};

use crate::{ChipKey, ChipState, Session, TrustPoint, Verified};
use chat_rights::{Kind, Rights};
use cv_dates::Day;
use holder_reference::Reference;

/// A trust point or the session's verifier, which has a certificate's authority reference.
#[derive(Clone, Copy)]
pub enum Voucher<'a> {
    Point(&'a TrustPoint),
    Verifier(&'a Verified),
}

fn older_named<'a>(older: &'a Option<TrustPoint>, authority: &Reference) -> Option<Voucher<'a>>
    ensures { option_map seen_issuer result ≡ words.older_named older.now authority.now }
{
    match older {
        None => None,
        Some(point) => {
            if point.reference.is(authority) {
                Some(Voucher::Point(point))
            } else {
                None
            }
        }
    }
}

fn verifier_named<'a>(verifier: &'a Option<Verified>, authority: &Reference) -> Option<Voucher<'a>>
    ensures { option_map seen_issuer result ≡ words.verifier_named verifier.now authority.now }
{
    match verifier {
        None => None,
        Some(verified) => {
            if verified.reference.is(authority) {
                Some(Voucher::Verifier(verified))
            } else {
                None
            }
        }
    }
}

/// The trust point with this reference, else the session's verifier with it.
pub fn issuer_named<'a>(
    state: &'a ChipState,
    session: &'a Session,
    authority: &Reference,
) -> Option<Voucher<'a>>
    ensures { option_map seen_issuer result ≡ words.issuer_named state.now session.now authority.now }
{
    if state.newest.reference.is(authority) {
        return Some(Voucher::Point(&state.newest));
    }
    match older_named(&state.older, authority) {
        Some(point) => Some(point),
        None => verifier_named(&session.verifier, authority),
    }
}

impl<'a> Voucher<'a> {
    pub fn is_point(self) -> bool
        ensures { result ≡ words.is_point (seen_issuer self.entry) }
    {
        match self {
            Voucher::Point(_) => true,
            Voucher::Verifier(_) => false,
        }
    }

    pub fn key(self) -> &'a ChipKey
        ensures { result.now ≡ words.key_of (seen_issuer self.entry) }
    {
        match self {
            Voucher::Point(point) => &point.key,
            Voucher::Verifier(verified) => &verified.key,
        }
    }

    /// The expiration date.
    pub fn until(self) -> Day
        ensures { result ≡ words.until_of (seen_issuer self.entry) }
    {
        match self {
            Voucher::Point(point) => point.until,
            Voucher::Verifier(verified) => verified.until,
        }
    }

    pub fn kind(self) -> Kind
        ensures { result ≡ (words.template_of (seen_issuer self.entry)).kind }
    {
        match self {
            Voucher::Point(point) => point.template.kind,
            Voucher::Verifier(verified) => verified.template.kind,
        }
    }

    /// The rights of the trust point at its root.
    pub fn root(self) -> Rights
        ensures { result ≡ words.root_of (seen_issuer self.entry) }
    {
        match self {
            Voucher::Point(point) => point.template.rights,
            Voucher::Verifier(verified) => verified.root,
        }
    }
}
