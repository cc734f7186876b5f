// What no clause says: that the calls find memory, the bytes of worked examples, and a certificate for each refusal.
//
// Owned values are let go by a call of `drop`: at the end of a scope each list of bytes in them would be proved apart.
ghost use Rattle.std.specs.Prelude.{◌≡◌, ◌<◌, IfSome, IsSome};
ghost use Rattle.std.specs.Option.{option_copied};
ghost use Rattle.keeper.specs.Rows.{IsStorable, IsStorableKey, IsStorableSettled};
ghost use Rattle.holder_core.specs.Signers.{own_signer};
ghost use Rattle.holder_core.specs.Trusting.{carried};

mod full_keeper;

use self::full_keeper::FullKeeper;
use crate::{
    CaRule, CertList, HolderFault, Item, Made, TakeRule, Taken, TakenCa, make_request, numbered,
    receive, take_ca, take_certificate, trust_ca,
};
use chat_rights::{Kind, Rights, Role, Template};
use cv_dates::{Day, day_from_text};
use eac_base::{FailPlan, Octets};
use holder_reference::{Reference, read_reference};
use keeper::{Keeper, KeeperPlan, MemoryKeeper, OwnPart, Part, Row, Settled};
use signature_provider::{Algorithm, FormName, Key, SignatureProvider, TableProvider, plain_form};
use std::alloc::Global;
use std::process::Abort;

// A certificate of a verifier that an authority gave on 2024-01-01. Its signature is the third.
const CERTIFICATE: &[u8; 167] = b"\
    \x7f\x21\x81\xa3\
    \x7f\x4e\x5d\
    \x5f\x29\x01\x00\
    \x42\x0bDECVCA00001\
    \x7f\x49\x16\
    \x06\x0a\x04\x00\x7f\x00\x07\x02\x02\x02\x02\x03\
    \x86\x08\x00\x00\x00\x00\x00\x00\x00\x02\
    \x5f\x20\x0dDEDVBUND00001\
    \x7f\x4c\x0e\x06\x09\x04\x00\x7f\x00\x07\x03\x01\x02\x01\x53\x01\x83\
    \x5f\x25\x06\x02\x04\x00\x01\x00\x01\
    \x5f\x24\x06\x02\x04\x00\x03\x03\x01\
    \x5f\x37\x40\x00\x00\x00\x00\x00\x00\x00\x00\x00\x00\x00\x00\x00\x00\x00\x00\x00\x00\x00\x00\x00\x00\x00\
    \x00\x00\x00\x00\x00\x00\x00\x00\x00\x00\x00\x00\x00\x00\x00\x00\x00\x00\x00\x00\x00\x00\x00\x00\x00\x00\
    \x00\x00\x00\x00\x00\x00\x00\x00\x00\x00\x00\x00\x00\x00\x03";

// The request for it, which has the second signature.
const REQUEST: &[u8; 150] = b"\
    \x7f\x21\x81\x92\
    \x7f\x4e\x4c\
    \x5f\x29\x01\x00\
    \x42\x0bDECVCA00001\
    \x7f\x49\x28\
    \x06\x0a\x04\x00\x7f\x00\x07\x02\x02\x02\x02\x03\
    \x81\x01\x01\
    \x82\x01\x02\
    \x83\x01\x03\
    \x84\x01\x04\
    \x85\x01\x05\
    \x86\x08\x00\x00\x00\x00\x00\x00\x00\x02\
    \x87\x01\x01\
    \x5f\x20\x0dDEDVBUND00001\
    \x5f\x37\x40\x00\x00\x00\x00\x00\x00\x00\x00\x00\x00\x00\x00\x00\x00\x00\x00\x00\x00\x00\x00\x00\x00\x00\
    \x00\x00\x00\x00\x00\x00\x00\x00\x00\x00\x00\x00\x00\x00\x00\x00\x00\x00\x00\x00\x00\x00\x00\x00\x00\x00\
    \x00\x00\x00\x00\x00\x00\x00\x00\x00\x00\x00\x00\x00\x00\x02";

fn octets(rt: &impl Abort, alloc: Global, bytes: &[u8]) -> Octets
    ensures { result ≡ bytes.now }
{
    Octets::from_slice(alloc, bytes).expect(rt, "memory is there")
}

fn day(rt: &impl Abort, text: &[u8; 6]) -> Day {
    day_from_text(text).expect(rt, "the day exists")
}

fn reference(rt: &impl Abort, text: &[u8]) -> Reference {
    read_reference(text).expect(rt, "the reference is legal")
}

// The key of this number.
fn key(rt: &impl Abort, alloc: Global, number: u8) -> Key
    ensures { IsStorableKey result }
{
    let domain = [0x81, 1, 1, 0x82, 1, 2, 0x83, 1, 3, 0x84, 1, 4, 0x85, 1, 5];
    Key {
        algorithm: Algorithm { arc: 2, last: 3 },
        domain: octets(rt, alloc, &domain),
        point: octets(rt, alloc, &[0, 0, 0, 0, 0, 0, 0, number]),
        cofactor: octets(rt, alloc, &[0x87, 1, 1]),
    }
}

// A country authority's certificate.
fn founding(rt: &impl Abort, alloc: Global) -> Settled
    ensures { IsStorableSettled result }
{
    Settled {
        certificate: octets(rt, alloc, b"\x01"),
        issuer: reference(rt, b"DECVCA00001"),
        template: Template {
            kind: Kind::Inspection,
            role: Role::Cvca,
            rights: Rights::from_bits(3).expect(rt, "there are such rights"),
        },
        from: day(rt, b"240101"),
        until: day(rt, b"270101"),
    }
}

// An authority's own row of this reference with the key of this number, as it is carried by hand.
fn carried_as(rt: &impl Abort, alloc: Global, text: &[u8], number: u8) -> Row
    ensures storable { IsStorable result }
    ensures carried { IsSome (carried result.part) }
    ensures signs { IsSome (own_signer result) }
{
    let reference = reference(rt, text);
    Row {
        desk: 0,
        reference,
        part: Part::Own(OwnPart {
            authority: reference.holder(),
            request: Octets::new(alloc),
            key: key(rt, alloc, number),
            settled: Some(founding(rt, alloc)),
        }),
    }
}

// That of the authority whose requests and certificates these are.
fn carried_row(rt: &impl Abort, alloc: Global, number: u8) -> Row
    ensures storable { IsStorable result }
    ensures carried { IsSome (carried result.part) }
    ensures signs { IsSome (own_signer result) }
{
    carried_as(rt, alloc, b"DECVCA00001", number)
}

// The verifier's own row of this reference, which waits for a certificate of the key of this number.
fn waiting_row(rt: &impl Abort, alloc: Global, text: &[u8], number: u8) -> Row
    ensures { IsStorable result }
{
    Row {
        desk: 1,
        reference: reference(rt, text),
        part: Part::Own(OwnPart {
            authority: reference(rt, b"DECVCA00001").holder(),
            request: Octets::new(alloc),
            key: key(rt, alloc, number),
            settled: None,
        }),
    }
}

// The rows of the verifier, party 1: whether it knows the authority, and the number of its own key, where it has one.
fn rows(rt: &impl Abort, alloc: Global, knows: bool, own: Option<u8>) -> MemoryKeeper {
    let mut keeper = MemoryKeeper::new(alloc, KeeperPlan::new(alloc));
    if knows {
        let row = carried_row(rt, alloc, 1);
        drop(trust_ca(alloc, 1, &row, &mut keeper));
        drop(row);
    }
    if let Some(number) = own {
        let row = waiting_row(rt, alloc, b"DEDVBUND00001", number);
        keeper.add(alloc, &row).expect(rt, "the row is new");
        drop(row);
    }
    keeper
}

fn sign(rt: &impl Abort, alloc: Global, provider: &mut TableProvider, key: &Key, message: &[u8]) {
    drop(
        provider
            .sign(alloc, key, message)
            .expect(rt, "the key is there"),
    );
}

// Two signatures of nothing by the authority's key, and so many of the certificate, with the numbers from three on.
fn provider(rt: &impl Abort, alloc: Global, good: u8) -> TableProvider {
    let mut provider = TableProvider::new(alloc, FailPlan::new(alloc));
    let form = plain_form(alloc, FormName::Ec).expect(rt, "memory is there");
    let key = provider.new_key(alloc, &form).expect(rt, "no call fails");
    drop(form);
    sign(rt, alloc, &mut provider, &key, b"");
    sign(rt, alloc, &mut provider, &key, b"");
    let whole = CERTIFICATE.as_slice();
    for _ in 0..good {
        sign(rt, alloc, &mut provider, &key, &whole[4..100]);
    }
    drop(key);
    provider
}

fn is_stored(answer: Result<Taken, HolderFault>) -> bool {
    let is_stored =
        matches!(&answer, Ok(Taken::Stored(it)) if it.as_slice() == b"DEDVBUND00001".as_slice());
    drop(answer);
    is_stored
}

fn is_already(answer: Result<Taken, HolderFault>) -> bool {
    let is_already =
        matches!(&answer, Ok(Taken::Already(it)) if it.as_slice() == b"DEDVBUND00001".as_slice());
    drop(answer);
    is_already
}

// The number of the rule that was answered.
fn broken(answer: Result<Taken, HolderFault>) -> Option<u8> {
    let broken = match &answer {
        Ok(Taken::Refused(rule)) => Some(rule.number()),
        _ => None,
    };
    drop(answer);
    broken
}

// The rule that the certificate breaks, or the bytes in its place.
fn refused(
    rt: &impl Abort,
    alloc: Global,
    bytes: &[u8],
    rows: MemoryKeeper,
    good: u8,
) -> Option<u8> {
    let mut keeper = rows;
    let mut provider = provider(rt, alloc, good);
    let answer = take_certificate(alloc, 1, bytes, &mut keeper, &mut provider);
    drop(keeper);
    drop(provider);
    broken(answer)
}

#[test]
fn a_certificate_is_stored_and_its_repeat_is_already_there(rt: HostRuntime) {
    let alloc = rt.alloc();
    let mut keeper = rows(&rt, alloc, true, Some(2));
    let mut provider = provider(&rt, alloc, 1);
    let first = take_certificate(alloc, 1, CERTIFICATE, &mut keeper, &mut provider);
    assert!(rt; is_stored(first));
    let again = take_certificate(alloc, 1, CERTIFICATE, &mut keeper, &mut provider);
    assert!(rt; is_already(again));
    drop(keeper);
    drop(provider);
}

// Whether it was refused for this certificate, which is kept.
fn differs(answer: Result<Taken, HolderFault>) -> bool {
    let differs =
        matches!(&answer, Ok(Taken::Refused(TakeRule::Differs(kept))) if kept.as_slice() == CERTIFICATE.as_slice());
    drop(answer);
    differs
}

#[test]
fn another_certificate_under_a_settled_number_differs_from_the_one_that_is_kept(rt: HostRuntime) {
    let alloc = rt.alloc();
    let mut keeper = rows(&rt, alloc, true, Some(2));
    let mut provider = provider(&rt, alloc, 2);
    let first = take_certificate(alloc, 1, CERTIFICATE, &mut keeper, &mut provider);
    assert!(rt; is_stored(first));
    let other = with_byte(166, 4);
    let answer = take_certificate(alloc, 1, &other, &mut keeper, &mut provider);
    assert!(rt; differs(answer));
    drop(keeper);
    drop(provider);
}

#[test]
fn each_refusal_of_a_certificate_is_reached(rt: HostRuntime) {
    let alloc = rt.alloc();
    let whole = CERTIFICATE.as_slice();
    let table = [
        (true, Some(2), 1, &whole[1..], Some(1)),
        (true, None, 1, whole, Some(2)),
        (true, Some(3), 1, whole, Some(3)),
        (false, Some(2), 1, whole, Some(4)),
        (true, Some(2), 0, whole, Some(5)),
    ];
    for (knows, own, good, bytes, rule) in table {
        assert!(rt; refused(&rt, alloc, bytes, rows(&rt, alloc, knows, own), good) == rule);
    }
}

#[test]
fn an_authority_is_trusted_once(rt: HostRuntime) {
    let alloc = rt.alloc();
    let mut keeper = rows(&rt, alloc, false, None);
    let row = carried_row(&rt, alloc, 1);
    let first = trust_ca(alloc, 1, &row, &mut keeper);
    assert!(rt; matches!(&first, Ok(TakenCa::Stored(_))));
    drop(first);
    let again = trust_ca(alloc, 1, &row, &mut keeper);
    assert!(rt; matches!(&again, Ok(TakenCa::Held(_))));
    drop(again);
    drop(row);
    drop(keeper);
}

#[test]
fn a_verifier_is_taken_for_an_authority_once(rt: HostRuntime) {
    let alloc = rt.alloc();
    let mut keeper = rows(&rt, alloc, true, None);
    let mut provider = provider(&rt, alloc, 1);
    let first = take_ca(alloc, 1, CERTIFICATE, &mut keeper, &mut provider);
    assert!(rt; matches!(&first, Ok(TakenCa::Stored(_))));
    drop(first);
    let again = take_ca(alloc, 1, CERTIFICATE, &mut keeper, &mut provider);
    assert!(rt; matches!(&again, Ok(TakenCa::Held(_))));
    drop(again);
    drop(keeper);
    drop(provider);
}

// The number of the rule that the certificate breaks as an authority's.
fn refused_ca(rt: &impl Abort, alloc: Global, bytes: &[u8], knows: bool, good: u8) -> Option<u8> {
    let mut keeper = rows(rt, alloc, knows, None);
    let mut provider = provider(rt, alloc, good);
    let answer = take_ca(alloc, 1, bytes, &mut keeper, &mut provider);
    drop(keeper);
    drop(provider);
    let broken = match &answer {
        Ok(TakenCa::Refused(rule)) => Some(rule.number()),
        _ => None,
    };
    drop(answer);
    broken
}

// The certificate with another byte at a place.
fn with_byte(at: usize, byte: u8) -> [u8; 167]
    requires { at < 167 }
{
    let mut bytes = *CERTIFICATE;
    bytes[at] = byte;
    bytes
}

#[test]
fn each_refusal_of_an_authority_is_reached(rt: HostRuntime) {
    let alloc = rt.alloc();
    // a terminal's role, and another algorithm
    let (terminal, other) = (with_byte(81, 0x03), with_byte(38, 0x04));
    let whole = CERTIFICATE.as_slice();
    assert!(rt; refused_ca(&rt, alloc, &whole[1..], true, 1) == Some(1));
    assert!(rt; refused_ca(&rt, alloc, &terminal, true, 1) == Some(2));
    assert!(rt; refused_ca(&rt, alloc, CERTIFICATE, false, 1) == Some(3));
    assert!(rt; refused_ca(&rt, alloc, &other, true, 1) == Some(4));
    assert!(rt; refused_ca(&rt, alloc, CERTIFICATE, true, 0) == Some(5));
}

#[test]
fn another_certificate_of_an_authority_differs_from_the_one_that_is_kept(rt: HostRuntime) {
    let alloc = rt.alloc();
    let mut keeper = rows(&rt, alloc, true, None);
    let mut provider = provider(&rt, alloc, 2);
    drop(take_ca(alloc, 1, CERTIFICATE, &mut keeper, &mut provider));
    let other = with_byte(166, 4);
    let answer = take_ca(alloc, 1, &other, &mut keeper, &mut provider);
    assert!(rt;
        matches!(&answer, Ok(TakenCa::Refused(CaRule::Differs(kept))) if kept.as_slice() == CERTIFICATE.as_slice())
    );
    drop(answer);
    drop(keeper);
    drop(provider);
}

#[test]
fn a_full_table_takes_no_further_authority(rt: HostRuntime) {
    let alloc = rt.alloc();
    let mut keeper = FullKeeper::new(rows(&rt, alloc, true, None));
    let mut provider = provider(&rt, alloc, 1);
    let taken = take_ca(alloc, 1, CERTIFICATE, &mut keeper, &mut provider);
    assert!(rt; matches!(&taken, Ok(TakenCa::Refused(CaRule::Full))));
    drop(taken);
    let row = carried_as(&rt, alloc, b"SECVCA00001", 1);
    let trusted = trust_ca(alloc, 1, &row, &mut keeper);
    assert!(rt; matches!(&trusted, Ok(TakenCa::Refused(CaRule::Full))));
    drop(trusted);
    drop(row);
    drop(keeper);
    drop(provider);
}

#[test]
fn certificates_are_received_in_order(rt: HostRuntime) {
    let alloc = rt.alloc();
    let mut keeper = rows(&rt, alloc, true, Some(2));
    let mut provider = provider(&rt, alloc, 1);
    let mut list = CertList::new(alloc);
    list.push(CERTIFICATE).expect(&rt, "memory is there");
    list.push(b"\x00").expect(&rt, "memory is there");
    list.push(CERTIFICATE).expect(&rt, "memory is there");
    let received = receive(alloc, 1, &list, &mut keeper, &mut provider);
    assert!(rt; received.items.len() == 3 && received.fault.is_none());
    assert!(rt; matches!(received.items.get(0), Some(Item::Own(Taken::Stored(_)))));
    assert!(rt; matches!(received.items.get(1), Some(Item::Ca(TakenCa::Refused(_)))));
    assert!(rt; matches!(received.items.get(2), Some(Item::Own(Taken::Already(_)))));
    drop(received);
    drop(list);
    drop(keeper);
    drop(provider);
}

// A provider with the authority's key, which has signed nothing yet but an empty message.
fn young_provider(rt: &impl Abort, alloc: Global) -> TableProvider {
    let mut provider = TableProvider::new(alloc, FailPlan::new(alloc));
    let form = plain_form(alloc, FormName::Ec).expect(rt, "memory is there");
    let key = provider.new_key(alloc, &form).expect(rt, "no call fails");
    drop(form);
    sign(rt, alloc, &mut provider, &key, b"");
    drop(key);
    provider
}

// The verifier asks the authority.
fn ask(
    rt: &impl Abort,
    alloc: Global,
    home: Option<&Row>,
    keeper: &mut MemoryKeeper,
    provider: &mut TableProvider,
) -> Result<Made, HolderFault>
    requires { IfSome (option_copied home) (λ row. IsSome (own_signer row)) }
{
    let holder = reference(rt, b"DEDVBUND00001").holder();
    let authority = reference(rt, b"DECVCA00001").holder();
    make_request(
        alloc, 1, &holder, &authority, &authority, home, keeper, provider,
    )
}

fn is_made(made: Result<Made, HolderFault>, reference: &[u8], bytes: &[u8]) -> bool {
    let is_made = match &made {
        Ok(
            Made::Request {
                reference: named,
                bytes: request,
            },
        ) => named.as_slice() == reference && request.as_slice() == bytes,
        _ => false,
    };
    drop(made);
    is_made
}

// Whether it is a request of this reference with an outer part.
fn is_authenticated(made: Result<Made, HolderFault>, reference: &[u8]) -> bool {
    let is_authenticated = match &made {
        Ok(
            Made::Request {
                reference: named,
                bytes: request,
            },
        ) => named.as_slice() == reference && request.as_slice().first() == Some(&0x67),
        _ => false,
    };
    drop(made);
    is_authenticated
}

#[test]
fn a_request_is_made_and_its_certificate_signs_the_next_one(rt: HostRuntime) {
    let alloc = rt.alloc();
    let mut keeper = rows(&rt, alloc, true, None);
    let mut provider = young_provider(&rt, alloc);
    let first = ask(&rt, alloc, None, &mut keeper, &mut provider);
    assert!(rt; is_made(first, b"DEDVBUND00001", REQUEST));
    let authority = key(&rt, alloc, 1);
    let whole = CERTIFICATE.as_slice();
    sign(&rt, alloc, &mut provider, &authority, &whole[4..100]);
    drop(authority);
    let stored = take_certificate(alloc, 1, CERTIFICATE, &mut keeper, &mut provider);
    assert!(rt; is_stored(stored));
    let second = ask(&rt, alloc, None, &mut keeper, &mut provider);
    assert!(rt; is_authenticated(second, b"DEDVBUND00002"));
    drop(keeper);
    drop(provider);
}

#[test]
fn each_refusal_of_a_request_is_reached(rt: HostRuntime) {
    let alloc = rt.alloc();
    let mut provider = young_provider(&rt, alloc);
    let mut keeper = rows(&rt, alloc, false, None);
    let unknown = ask(&rt, alloc, None, &mut keeper, &mut provider);
    assert!(rt; matches!(&unknown, Ok(Made::NoAuthority)));
    drop(unknown);
    drop(keeper);
    // the row of the next number is there
    let mut keeper = rows(&rt, alloc, true, None);
    let row = waiting_row(&rt, alloc, b"DEDVBUND00002", 9);
    keeper.add(alloc, &row).expect(&rt, "the row is new");
    drop(row);
    let late = ask(&rt, alloc, None, &mut keeper, &mut provider);
    assert!(rt; matches!(&late, Ok(Made::Exhausted)));
    drop(late);
    // a home row whose key isn't held
    let home = carried_row(&rt, alloc, 200);
    let unheld = ask(&rt, alloc, Some(&home), &mut keeper, &mut provider);
    assert!(rt;
        matches!(&unheld, Err(HolderFault::NoKey(named)) if named.as_slice() == b"DECVCA00001".as_slice())
    );
    drop(unheld);
    drop(home);
    drop(keeper);
    drop(provider);
}
