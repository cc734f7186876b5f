// What no clause says: that the calls find memory, and how lines and dates of worked examples come out.
use super::*;
use chat_rights::Role;
use cv_dates::{Day, day_from_text, day_text};
use eac_base::{NoMemory, Octets};
use holder_reference::read_holder;
use signature_provider::FormName;
use std::alloc::Global;
use std::process::Abort;
use std::test::Fail;

/// The first line that breaks a rule, and the rule: 1 is form, 2 a limit, 3 twice.
fn fault_in(alloc: Global, text: &[u8]) -> Option<(u64, u8)> {
    match read_setup(alloc, text) {
        Ok(_) => None,
        Err(SetupRefusal::Form { line }) => Some((line, 1)),
        Err(SetupRefusal::Limit { line }) => Some((line, 2)),
        Err(SetupRefusal::Twice { line }) => Some((line, 3)),
        Err(SetupRefusal::NoMemory) => Some((0, 0)),
    }
}

#[test]
fn worked_setups_are_refused_by_line_and_rule(rt: HostRuntime) {
    let alloc = rt.alloc();
    assert_eq!(rt;
        fault_in(alloc, b"dv DEDVBUND\ndv DEDVBUND\n"),
        Some((2, 3))
    );
    assert_eq!(rt; fault_in(alloc, b"cvca DECVCA ec 03 1097"), Some((1, 2)));
    assert_eq!(rt; fault_in(alloc, b""), None);
}

/// An authority, a verifier with a registration there, and an inspection system: five lines, with a comment.
const FIVE: &[u8] =
    b"# parties\ncvca DECVCA ec 03 1096\r\ndv DEDVBUND\nterminal DEIS00001\nregister DECVCA DEDVBUND domestic 03 90 3 bare\n";

/// Lines that break a rule as the sixth one behind those five, and the least rule that they break.
const BROKEN: [(&[u8], u8); 55] = [
    // no setup line, or no words
    (b"day 240101", 1),
    (b"ask DEDVBUND00001 0102", 1),
    (b"DV FRDV1", 1),
    (b"dv  FRDV1", 1),
    (b" dv FRDV1", 1),
    (b"dv FRDV1 ", 1),
    (b"dv\tFRDV1", 1),
    (b"dv FRDV1\r", 1),
    (b"dv", 1),
    (b"dv FRDV1 FRDV2", 1),
    (b"terminal", 1),
    (b"terminal FRIS1 FRIS2", 1),
    // no holder name
    (b"dv FR", 1),
    (b"dv FRDV12345678", 1),
    (b"dv frDV1", 1),
    (b"terminal F1IS1", 1),
    // the words of an authority
    (b"cvca FRCVCA ec 03", 1),
    (b"cvca FRCVCA ec 03 1096 1096", 1),
    (b"cvca frCVCA ec 03 1096", 1),
    (b"cvca FRCVCA dh 03 1096", 1),
    (b"cvca FRCVCA ec 3 1096", 1),
    (b"cvca FRCVCA ec 003 1096", 1),
    (b"cvca FRCVCA ec 0g 1096", 1),
    (b"cvca FRCVCA ec 40 1096", 1),
    (b"cvca FRCVCA ec 03 0366", 1),
    (b"cvca FRCVCA ec 03 36a", 1),
    (b"cvca FRCVCA ec 03 182", 2),
    (b"cvca FRCVCA rsa 3F 1097", 2),
    (b"cvca FRCVCA ec 03 123456789012345678901234567890", 2),
    // who is registered where
    (b"register FRCVCA DEDVBUND domestic 03 90 3 bare", 1),
    (b"register DECVCA FRDV1 foreign 03 90 3 bare", 1),
    (b"register DEIS00001 DEDVBUND terminal 03 30 3 bare", 1),
    (b"register DECVCA DEIS00001 domestic 03 90 3 bare", 1),
    (b"register DEDVBUND DEDVBUND terminal 03 30 3 bare", 1),
    (b"register DECVCA DEDVBUND terminal 03 30 3 bare", 1),
    (b"register DEDVBUND DEIS00001 domestic 03 30 3 bare", 1),
    // the other words of a registration
    (b"register DEDVBUND DEIS00001 terminal 03 30 3", 1),
    (b"register DEDVBUND DEIS00001 terminal 40 30 3 bare", 1),
    (b"register DEDVBUND DEIS00001 terminal 03 030 3 bare", 1),
    (b"register DEDVBUND DEIS00001 terminal 03 30 03 bare", 1),
    (b"register DEDVBUND DEIS00001 terminal 03 30 3 home", 1),
    (
        b"register DEDVBUND DEIS00001 terminal 03 30 3 home:DECVCA",
        1,
    ),
    (b"register DECVCA DEDVBUND foreign 03 90 3 home:FRCVCA", 1),
    (b"register DECVCA DEDVBUND foreign 03 90 3 home:DEDVBUND", 1),
    (
        b"register DEDVBUND DEIS00001 terminal 03 30 3 bare barred",
        1,
    ),
    (
        b"register DEDVBUND DEIS00001 terminal 03 30 3 bare suspended suspended",
        1,
    ),
    (b"register DEDVBUND DEIS00001 terminal 03 0 3 bare", 2),
    (b"register DEDVBUND DEIS00001 terminal 03 32 3 bare", 2),
    (b"register DEDVBUND DEIS00001 terminal 03 30 0 bare", 2),
    (b"register DEDVBUND DEIS00001 terminal 03 30 101 bare", 2),
    // said twice, and the least of two rules
    (b"terminal DEDVBUND", 3),
    (
        b"register DECVCA DEDVBUND foreign 00 14 1 bare suspended",
        3,
    ),
    (b"cvca DECVCA ec 03 1097", 2),
    (b"register DECVCA DEDVBUND domestic 03 93 3 bare", 2),
    (b"register DECVCA DEDVBUND domestic 03 13 101 barred", 1),
];

fn after_five(alloc: Global, line: &[u8]) -> Result<Octets, NoMemory> {
    let mut text = Octets::from_slice(alloc, FIVE)?;
    text.push_all(line)?;
    Ok(text)
}

#[test]
fn each_way_to_break_a_rule_is_named_by_line_and_least_rule(rt: HostRuntime) -> Result<(), Fail> {
    let alloc = rt.alloc();
    for (line, rule) in BROKEN {
        let text = after_five(alloc, line)?;
        assert_eq!(rt; fault_in(alloc, text.as_slice()), Some((6, rule)));
    }
    Ok(())
}

/// Lines that are taken behind those five: the least and the greatest numbers, and each form of a word.
const TAKEN: [&[u8]; 9] = [
    b"cvca FRCVCA rsa 3F 183",
    b"cvca FRCVCA ec 3f 1096",
    b"dv FR1",
    b"terminal FRIS1234567",
    b"dv FR\xa1\n\n# end",
    b"register DEDVBUND DEIS00001 terminal 3f 1 1 bare",
    b"register DEDVBUND DEIS00001 terminal 00 31 100 bare suspended",
    b"dv FRDV1\nregister DECVCA FRDV1 foreign 03 14 1 home:DECVCA",
    b"dv FRDV1\nregister DECVCA FRDV1 foreign 03 92 100 home:DECVCA suspended\n",
];

#[test]
fn lines_within_all_rules_are_taken(rt: HostRuntime) -> Result<(), Fail> {
    let alloc = rt.alloc();
    for line in TAKEN {
        let text = after_five(alloc, line)?;
        assert_eq!(rt; fault_in(alloc, text.as_slice()), None);
    }
    Ok(())
}

#[test]
fn what_a_setup_holds_is_found_by_number_and_by_holder(rt: HostRuntime) -> Result<(), Fail> {
    let alloc = rt.alloc();
    let setup = read_setup(alloc, FIVE)?;
    let verifier = read_holder(b"DEDVBUND")?;
    let authority = setup.party(0).ok_or("the first party")?;
    assert!(rt;
        matches!(
            &authority.kind,
            PartyKind::Cvca {
                form: FormName::Ec,
                days: 1096,
                ..
            }
        )
    );
    assert_eq!(rt; setup.number_of(&verifier), Some(1));
    assert!(rt; setup.party(3).is_none());
    let registration = setup.registration(0, &verifier).ok_or("registered")?;
    assert_eq!(rt; registration.role, Role::Domestic);
    assert_eq!(rt; registration.rights.bits(), 3);
    assert_eq!(rt; (registration.days, registration.live_limit), (90, 3));
    assert!(rt; !registration.suspended);
    assert!(rt; setup.registration(1, &verifier).is_none());
    assert_eq!(rt; (setup.parties.len(), setup.registrations.len()), (3, 1));
    Ok(())
}

/// Setup lines of so many verifiers.
fn verifiers(alloc: Global, count: u32) -> Result<Octets, NoMemory> {
    let mut text = Octets::new(alloc);
    for number in 0..count {
        let digit = |place: u32| b'0' + (number / place % 10) as u8;
        text.push_all(b"dv DE")?;
        text.push_all(&[digit(1000), digit(100), digit(10), digit(1)])?;
        text.push_all(b"\n")?;
    }
    Ok(text)
}

#[test]
fn a_thousand_parties_are_taken_and_no_more(rt: HostRuntime) -> Result<(), Fail> {
    let alloc = rt.alloc();
    let mut text = verifiers(alloc, 1_000)?;
    assert_eq!(rt; fault_in(alloc, text.as_slice()), None);
    text.push_all(b"dv DE0000")?;
    assert_eq!(rt; fault_in(alloc, text.as_slice()), Some((1_001, 2)));
    Ok(())
}

fn day_of(text: &[u8]) -> Result<Day, Fail> {
    Ok(day_from_text(text)?)
}

#[test]
fn validity_is_cut_to_the_authority_and_ends_at_the_minimum(rt: HostRuntime) -> Result<(), Fail> {
    let last = day_of(b"270101")?;
    let minimum = minimum_days(Role::Domestic);
    let (from, until) = validity(day_of(b"261218")?, 90, last, minimum).ok_or("fourteen days")?;
    assert_eq!(rt; (day_text(from), day_text(until)), (*b"261218", *b"270101"));
    assert!(rt; validity(day_of(b"261219")?, 90, last, minimum).is_none());
    assert!(rt; validity(day_of(b"270102")?, 90, last, 0).is_none());
    assert_eq!(rt; maximum_days(Role::Terminal), 31);
    Ok(())
}
