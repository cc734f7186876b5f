// Worked examples on certificates of another program, and that the calls take what they should take.
mod certs;

use self::certs::{
    DOMESTIC, FIRST_TO_FOURTH, FIRST_TO_SECOND, FOREIGN, ROOT, SECOND_TO_FIRST, SECOND_TO_THIRD,
    UNDER_DOMESTIC, UNDER_FOREIGN, UNSIGNED, WITH_DOMAIN,
};
use crate::{ChipState, Imported, Judged, Session, import};
use cv_dates::{Day, day_from_text};
use cvc_grammar::view_cert;
use signature_provider::DigestProvider;
use std::process::Abort;

/// A chip that was made with the first authority key on this day and is given certificates.
#[derive(Drop)]
struct Chip {
    state: ChipState,
    session: Session,
    provider: DigestProvider,
}

fn day(rt: &impl Abort, text: &[u8]) -> Day {
    day_from_text(text).expect(rt, "a day")
}

fn made_on(rt: &impl Abort, text: &[u8], provider: DigestProvider) -> Chip {
    let Ok(root) = view_cert(ROOT) else {
        panic!(rt; "a certificate");
    };
    Chip {
        state: ChipState::of_root(&root, day(rt, text)).expect(rt, "a root"),
        session: Session::new(),
        provider,
    }
}

/// What a certificate was taken as, or the number of its refusal.
fn given(rt: &impl Abort, chip: &mut Chip, bytes: &[u8]) -> Result<Imported, u8> {
    let Ok(view) = view_cert(bytes) else {
        panic!(rt; "a certificate");
    };
    match import(
        &mut chip.state,
        &mut chip.session,
        &view,
        &mut chip.provider,
    ) {
        Ok(Judged::Held) => Ok(Imported::Held),
        Ok(Judged::Refused(refusal)) => Err(refusal.number()),
        Ok(Judged::Next { what, .. }) => Ok(what),
        Err(_) => Err(0),
    }
}

fn granted(chip: &Chip) -> Option<u64> {
    match chip.session.granted() {
        Some(rights) => Some(rights.bits()),
        None => None,
    }
}

#[test]
fn the_grant_is_what_all_three_have_and_a_foreign_terminal_keeps_the_day(rt: HostRuntime) {
    let alloc = rt.alloc();
    let table: [(&[u8], &[u8], &[u8]); 2] = [
        (DOMESTIC, UNDER_DOMESTIC, b"240202"),
        (FOREIGN, UNDER_FOREIGN, b"240201"),
    ];
    for (verifier, terminal, last) in table {
        let mut chip = made_on(&rt, b"240101", DigestProvider::new(alloc, [0; 32]));
        assert_eq!(rt; given(&rt, &mut chip, verifier), Ok(Imported::Verifier));
        assert_eq!(rt; granted(&chip), None);
        assert_eq!(rt; chip.state.day, day(&rt, b"240201"));
        assert_eq!(rt; given(&rt, &mut chip, terminal), Ok(Imported::Terminal));
        assert_eq!(rt; granted(&chip), Some(1));
        assert_eq!(rt; chip.state.day, day(&rt, last));
    }
}

#[test]
fn links_are_taken_in_turn(rt: HostRuntime) {
    let mut chip = made_on(&rt, b"240101", DigestProvider::new(rt.alloc(), [0; 32]));
    let table: [(&[u8], Result<Imported, u8>); 5] = [
        (SECOND_TO_THIRD, Err(1)),
        (FIRST_TO_SECOND, Ok(Imported::Link)),
        (SECOND_TO_THIRD, Ok(Imported::Link)),
        (SECOND_TO_THIRD, Ok(Imported::Held)),
        (FIRST_TO_SECOND, Err(1)),
    ];
    for (bytes, answer) in table {
        assert_eq!(rt; given(&rt, &mut chip, bytes), answer);
    }
}

#[test]
fn links_come_from_the_newest_point_later_and_may_have_expired(rt: HostRuntime) {
    let mut chip = made_on(&rt, b"240601", DigestProvider::new(rt.alloc(), [0; 32]));
    let table: [(&[u8], Result<Imported, u8>); 4] = [
        (FIRST_TO_SECOND, Ok(Imported::Link)),
        (SECOND_TO_FIRST, Err(8)),
        (FIRST_TO_FOURTH, Err(7)),
        (SECOND_TO_THIRD, Ok(Imported::Link)),
    ];
    for (bytes, answer) in table {
        assert_eq!(rt; given(&rt, &mut chip, bytes), answer);
    }
}

#[test]
fn a_verifier_names_no_domain_and_has_its_issuers_signature(rt: HostRuntime) {
    let mut chip = made_on(&rt, b"240101", DigestProvider::new(rt.alloc(), [0; 32]));
    let table: [(&[u8], Result<Imported, u8>); 4] = [
        (UNDER_DOMESTIC, Err(1)),
        (WITH_DOMAIN, Err(4)),
        (UNSIGNED, Err(9)),
        (ROOT, Ok(Imported::Held)),
    ];
    for (bytes, answer) in table {
        assert_eq!(rt; given(&rt, &mut chip, bytes), answer);
    }
    let mut late = made_on(&rt, b"240601", DigestProvider::new(rt.alloc(), [0; 32]));
    assert_eq!(rt; given(&rt, &mut late, DOMESTIC), Err(6));
}
