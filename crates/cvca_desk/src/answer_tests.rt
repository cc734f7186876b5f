// What no clause says: that the calls find memory, and the bytes of the worked example from the founding to the
// certificate that a verifier takes.
//
// Owned values are let go by a call of `drop`: at the end of a scope each list of bytes in them would be proved apart.
ghost use Rattle.std.specs.Prelude.{◌≡◌, IsSome, is_some};
ghost use Rattle.keeper.specs.Rows.{IsStorable};
ghost use Rattle.holder_core.specs.Trusting.{carried};

use crate::terms::terms_of;
use crate::tests::FOUNDING;
use crate::{Founded, answer, found, list};
use cv_dates::{Day, day_from_text};
use desk_core::{Event1, Served};
use eac_base::{ByteLists, FailPlan, NoMemory, Octets, is_same};
use eac_messages::{Code, Message};
use holder_core::{Made, Taken, make_request, take_certificate, trust_ca};
use holder_reference::{Reference, read_reference};
use keeper::{Keeper, KeeperPlan, MemoryKeeper, Part, Row, Table};
use policy_limits::read_setup;
use signature_provider::TableProvider;
use std::alloc::Global;
use std::process::Abort;

// A request of a verifier, and the certificate that an authority gives it on 2024-01-01. Signatures are numbers.
const REQUEST: &[u8; 150] = b"\
    \x7f\x21\x81\x92\
    \x7f\x4e\x4c\
    \x5f\x29\x01\x00\
    \x42\x0bDECVCA00001\
    \x7f\x49\x28\
    \x06\x0a\x04\x00\x7f\x00\x07\x02\x02\x02\x02\x03\
    \x81\x01\x01\
    \x82\x01\x02\
    \x83\x01\x03\
    \x84\x01\x04\
    \x85\x01\x05\
    \x86\x08\x00\x00\x00\x00\x00\x00\x00\x02\
    \x87\x01\x01\
    \x5f\x20\x0dDEDVBUND00001\
    \x5f\x37\x40\x00\x00\x00\x00\x00\x00\x00\x00\x00\x00\x00\x00\x00\x00\x00\x00\x00\x00\x00\x00\x00\x00\x00\
    \x00\x00\x00\x00\x00\x00\x00\x00\x00\x00\x00\x00\x00\x00\x00\x00\x00\x00\x00\x00\x00\x00\x00\x00\x00\x00\
    \x00\x00\x00\x00\x00\x00\x00\x00\x00\x00\x00\x00\x00\x00\x02";

const CERTIFICATE: &[u8; 167] = b"\
    \x7f\x21\x81\xa3\
    \x7f\x4e\x5d\
    \x5f\x29\x01\x00\
    \x42\x0bDECVCA00001\
    \x7f\x49\x16\
    \x06\x0a\x04\x00\x7f\x00\x07\x02\x02\x02\x02\x03\
    \x86\x08\x00\x00\x00\x00\x00\x00\x00\x02\
    \x5f\x20\x0dDEDVBUND00001\
    \x7f\x4c\x0e\x06\x09\x04\x00\x7f\x00\x07\x03\x01\x02\x01\x53\x01\x83\
    \x5f\x25\x06\x02\x04\x00\x01\x00\x01\
    \x5f\x24\x06\x02\x04\x00\x03\x03\x01\
    \x5f\x37\x40\x00\x00\x00\x00\x00\x00\x00\x00\x00\x00\x00\x00\x00\x00\x00\x00\x00\x00\x00\x00\x00\x00\x00\
    \x00\x00\x00\x00\x00\x00\x00\x00\x00\x00\x00\x00\x00\x00\x00\x00\x00\x00\x00\x00\x00\x00\x00\x00\x00\x00\
    \x00\x00\x00\x00\x00\x00\x00\x00\x00\x00\x00\x00\x00\x00\x03";

const SETUP: &[u8] =
    b"cvca DECVCA ec 03 1096\ndv DEDVBUND\nregister DECVCA DEDVBUND domestic 03 90 3 bare\n";

fn octets(rt: &impl Abort, alloc: Global, bytes: &[u8]) -> Octets
    ensures { result ≡ bytes.now }
{
    Octets::from_slice(alloc, bytes).expect(rt, "memory is there")
}

fn day(rt: &impl Abort, text: &[u8; 6]) -> Day {
    day_from_text(text).expect(rt, "the day exists")
}

fn reference(rt: &impl Abort, text: &[u8]) -> Reference {
    read_reference(text).expect(rt, "the reference is legal")
}

// Whether the row has a founding certificate that can be carried by hand.
fn is_founded(row: &Row) -> bool
    ensures { result ≡ is_some (carried row.now.part) }
{
    match &row.part {
        Part::Own(own) => own.settled.is_some(),
        _ => false,
    }
}

// The authority, party 0, is founded on 2024-01-01.
fn founded(
    rt: &impl Abort,
    alloc: Global,
    keeper: &mut MemoryKeeper,
    provider: &mut TableProvider,
) -> Row
    ensures storable { IsStorable result }
    ensures carried { IsSome (carried result.part) }
{
    let setup = read_setup(alloc, SETUP).expect(rt, "the setup is legal");
    assert!(rt; terms_of(&setup, 0).is_some());
    let answer = found(alloc, &setup, 0, day(rt, b"240101"), keeper, provider);
    drop(setup);
    let number = reference(rt, b"DECVCA00001");
    assert!(rt; answer == Ok(Founded::New(number)));
    let row = keeper
        .find(alloc, Table::Own, 0, &number)
        .expect(rt, "no call fails")
        .expect(rt, "the row was added");
    assert!(rt; is_founded(&row));
    row
}

// The verifier, party 1, asks the authority for a certificate.
fn requested(
    rt: &impl Abort,
    alloc: Global,
    keeper: &mut MemoryKeeper,
    provider: &mut TableProvider,
) -> Octets {
    let holder = reference(rt, b"DEDVBUND00001").holder();
    let authority = reference(rt, b"DECVCA00001").holder();
    let made = make_request(
        alloc, 1, &holder, &authority, &authority, None, keeper, provider,
    );
    match made {
        Ok(Made::Request { bytes, .. }) => bytes,
        other => {
            drop(other);
            Octets::new(alloc)
        }
    }
}

// An authority that is founded, and a verifier that trusts it and made its request.
fn begun(rt: &impl Abort, alloc: Global) -> (MemoryKeeper, TableProvider) {
    let mut keeper = MemoryKeeper::new(alloc, KeeperPlan::new(alloc));
    let mut provider = TableProvider::new(alloc, FailPlan::new(alloc));
    let row = founded(rt, alloc, &mut keeper, &mut provider);
    drop(trust_ca(alloc, 1, &row, &mut keeper));
    drop(row);
    let request = requested(rt, alloc, &mut keeper, &mut provider);
    assert!(rt; is_same(request.as_slice(), REQUEST.as_slice()));
    drop(request);
    (keeper, provider)
}

fn ask(
    rt: &impl Abort,
    alloc: Global,
    message: Message,
    keeper: &mut MemoryKeeper,
    provider: &mut TableProvider,
) -> Result<Served, NoMemory> {
    let setup = read_setup(alloc, SETUP).expect(rt, "the setup is legal");
    let today = day(rt, b"240101");
    let served = answer(alloc, &setup, 0, today, &message, keeper, provider);
    drop(message);
    drop(setup);
    served
}

fn request(rt: &impl Abort, alloc: Global) -> Message {
    Message::RequestCertificate {
        id: octets(rt, alloc, b"7"),
        request: octets(rt, alloc, REQUEST.as_slice()),
    }
}

// Whether the reply repeats the identifier and has this code and one certificate, this one, and lets go of it.
fn gives(served: Served, certificate: &[u8]) -> bool {
    let reply = &served.reply;
    let gives = is_same(reply.id.as_slice(), b"7")
        && reply.code == Code::CertAvailable
        && reply.certificates.len() == 1
        && matches!(reply.certificates.get(0), Some(it) if is_same(it, certificate));
    drop(served);
    gives
}

#[test]
fn a_request_is_issued_and_taken_and_its_repeat_is_kept(rt: HostRuntime) {
    let alloc = rt.alloc();
    let (mut keeper, mut provider) = begun(&rt, alloc);
    let served = ask(&rt, alloc, request(&rt, alloc), &mut keeper, &mut provider);
    let served = served.expect(&rt, "memory is there");
    let number = reference(&rt, b"DEDVBUND00001");
    assert!(rt; matches!(&served.event, Event1::Issued(it) if *it == number));
    assert!(rt; gives(served, CERTIFICATE.as_slice()));
    let taken = take_certificate(alloc, 1, CERTIFICATE, &mut keeper, &mut provider);
    assert!(rt; matches!(&taken, Ok(Taken::Stored(it)) if *it == number));
    drop(taken);
    let served = ask(&rt, alloc, request(&rt, alloc), &mut keeper, &mut provider);
    let served = served.expect(&rt, "memory is there");
    assert!(rt; matches!(&served.event, Event1::Kept(it) if *it == number));
    assert!(rt; gives(served, CERTIFICATE.as_slice()));
    drop(keeper);
    drop(provider);
}

#[test]
fn its_own_certificates_are_listed_and_others_declined(rt: HostRuntime) {
    let alloc = rt.alloc();
    let (mut keeper, mut provider) = begun(&rt, alloc);
    let certificates = list(alloc, 0, &mut keeper).expect(&rt, "no call fails");
    assert!(rt; certificates.len() == 1);
    drop(certificates);
    let id = octets(&rt, alloc, b"7");
    let message = Message::GetCaCertificates { id };
    let served = ask(&rt, alloc, message, &mut keeper, &mut provider);
    assert!(rt; gives(served.expect(&rt, "memory is there"), FOUNDING.as_slice()));
    let (id, certificates) = (octets(&rt, alloc, b"7"), ByteLists::new(alloc));
    let message = Message::SendCertificates { id, certificates };
    let served = ask(&rt, alloc, message, &mut keeper, &mut provider);
    let served = served.expect(&rt, "memory is there");
    assert!(rt; matches!(&served.event, Event1::NotServed));
    assert!(rt; served.reply.code == Code::NotAccepted);
    drop(served);
    drop(keeper);
    drop(provider);
}
