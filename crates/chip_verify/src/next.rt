// The trust and the session that follow from a certificate that is taken.
ghost use Rattle.std.specs.Prelude.{◌≡◌, ◌≤◌, max, length};
ghost use Rattle.chip_verify.specs.Refusals.{Link, OfTerminal};
ghost use Rattle.chip_verify.specs.Step as words;
ghost use Rattle.chip_verify.specs.Step.{trust_after};
ghost use Rattle.chip_verify.specs.Session.{no_session};
ghost use Rattle.chip_verify.specs.Views.{IsView, MayBeTaken, seen_body, seen_issuer};
ghost use Rattle.chip_verify.specs.Following.{KeyFits, LinkFits, following};

use crate::issuer::Voucher;
use crate::{ChipKey, ChipState, Imported, Judged, Session, TrustPoint, Verified};
use chat_rights::Role;
use cv_dates::Day;
use cvc_grammar::CertView;
use signature_provider::KeyView;

fn later(day: Day, other: Day) -> Day
    ensures { result ≡ max day other }
{
    if day.is_before(&other) { other } else { day }
}

// The key that is kept of a certificate's.
fn full_key(key: KeyView, issuer: &ChipKey) -> ChipKey
    requires domain { length key.domain.now ≤ 1024 }
    requires point { length key.point.now ≤ 1024 }
    ensures { result ≡ words.full_public_key key.entry.algorithm key.entry.domain.now key.entry.point.now issuer.now }
{
    let domain = if key.algorithm.is_elliptic() && key.domain.is_empty() {
        issuer.view().domain
    } else {
        key.domain
    };
    ChipKey::of(KeyView { domain, ..key })
}

fn new_point(cert: &CertView, issuer: Voucher) -> TrustPoint
    requires { KeyFits cert.now }
    ensures { result ≡ words.new_point (seen_body cert.now) (seen_issuer issuer.entry) }
{
    TrustPoint::certified(cert, full_key(cert.key, issuer.key()))
}

fn verified(cert: &CertView, issuer: Voucher) -> Verified
    requires { KeyFits cert.now }
    ensures { result ≡ words.verified (seen_body cert.now) (seen_issuer issuer.entry) }
{
    Verified {
        reference: cert.holder,
        template: cert.template,
        until: cert.until,
        key: full_key(cert.key, issuer.key()),
        root: issuer.root(),
    }
}

fn link(state: &ChipState, cert: &CertView, issuer: Voucher) -> ChipState
    requires key { KeyFits cert.now }
    requires link { LinkFits state.now (seen_body cert.now) }
    ensures { result ≡ trust_after Link state.now no_session (seen_body cert.now) (seen_issuer issuer.entry) }
{
    ChipState {
        day: later(state.day, cert.from),
        older: Some(state.newest.copied()),
        newest: new_point(cert, issuer),
    }
}

fn is_under_domestic(verifier: &Option<Verified>) -> bool
    ensures { result ≡ words.is_under_domestic verifier.now }
{
    match verifier {
        None => false,
        Some(verified) => match verified.template.role {
            Role::Domestic => true,
            Role::Foreign | Role::Terminal | Role::Cvca => false,
        },
    }
}

fn day_after_terminal(state: &ChipState, session: &Session, cert: &CertView) -> Day
    ensures { result ≡ words.day_after OfTerminal state.now session.now (seen_body cert.now) }
{
    if is_under_domestic(&session.verifier) {
        later(state.day, cert.from)
    } else {
        state.day
    }
}

/// What follows from a certificate that may be taken by this issuer, and whose signature is good.
pub fn next(state: &ChipState, session: &Session, cert: &CertView, issuer: Voucher) -> Judged
    requires view { IsView cert.now }
    requires taken { MayBeTaken state.now session.now (seen_body cert.now) (seen_issuer issuer) }
    ensures { result ≡ following state.now session.now (seen_body cert.now) (seen_issuer issuer.entry) }
{
    match cert.template.role {
        Role::Cvca => Judged::Next {
            state: link(state, cert, issuer),
            session: Session::new(),
            what: Imported::Link,
        },
        Role::Domestic | Role::Foreign => Judged::Next {
            state: state.at(later(state.day, cert.from)),
            session: Session::under(verified(cert, issuer)),
            what: Imported::Verifier,
        },
        Role::Terminal => Judged::Next {
            state: state.at(day_after_terminal(state, session, cert)),
            session: session.with(cert.template.rights),
            what: Imported::Terminal,
        },
    }
}
