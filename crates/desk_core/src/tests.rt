// What no clause says: that the calls find memory.
//
// A certificate's bytes are a number here, so a list can be read. Owned values are let go by a call of `drop`: at the
// end of a scope each list of bytes in them would be proved apart.
ghost use Rattle.keeper.specs.Rows.{IsStorable, IsStorableKey, IsStorableSettled};

use crate::{
    Desk, Event1, Served, answer_both, answer_list, answer_receipt, answer_request, decline,
};
use chat_rights::{Kind, Rights, Role, Template};
use cv_dates::{Day, day_from_text};
use eac_base::{ByteLists, FailPlan, NoMemory, Octets};
use eac_messages::Code;
use holder_reference::{Reference, read_reference};
use keeper::{CaPart, Keeper, KeeperPlan, MemoryKeeper, OwnPart, Part, Row, Settled};
use policy_limits::read_setup;
use signature_provider::{Algorithm, Key, TableProvider};
use std::alloc::Global;
use std::process::Abort;

const VERIFIER: u32 = 1;

fn day(rt: &impl Abort, text: &[u8; 6]) -> Day {
    day_from_text(text).expect(rt, "the day exists")
}

fn key(rt: &impl Abort, alloc: Global) -> Key
    ensures { IsStorableKey result }
{
    Key {
        algorithm: Algorithm { arc: 2, last: 3 },
        domain: Octets::new(alloc),
        point: Octets::from_slice(alloc, &[1]).expect(rt, "memory is there"),
        cofactor: Octets::new(alloc),
    }
}

fn settled(rt: &impl Abort, alloc: Global, number: u8) -> Settled
    ensures { IsStorableSettled result }
{
    Settled {
        certificate: Octets::from_slice(alloc, &[number]).expect(rt, "memory is there"),
        issuer: read_reference(b"DECVCA00001").expect(rt, "the reference is legal"),
        template: Template {
            kind: Kind::Inspection,
            role: Role::Domestic,
            rights: Rights::from_bits(3).expect(rt, "there are such rights"),
        },
        from: day(rt, b"240101"),
        until: day(rt, b"240331"),
    }
}

// The reference of this number, 1 to 99.
fn reference(rt: &impl Abort, number: u8) -> Reference {
    let name = [
        b'D',
        b'E',
        b'D',
        b'V',
        b'0',
        b'0',
        b'0',
        b'0' + number / 10 % 10,
        b'0' + number % 10,
    ];
    read_reference(&name).expect(rt, "the reference is legal")
}

// An own key with the certificate of this number, or one that waits for it.
fn own(rt: &impl Abort, alloc: Global, number: u8, has_come: bool) -> Row
    ensures { IsStorable result }
{
    let reference = reference(rt, number);
    Row {
        desk: VERIFIER,
        reference,
        part: Part::Own(OwnPart {
            authority: reference.holder(),
            request: Octets::from_slice(alloc, &[number]).expect(rt, "memory is there"),
            key: key(rt, alloc),
            settled: if has_come {
                Some(settled(rt, alloc, number))
            } else {
                None
            },
        }),
    }
}

// The certificate of an authority.
fn authority(rt: &impl Abort, alloc: Global, number: u8) -> Row
    ensures { IsStorable result }
{
    Row {
        desk: VERIFIER,
        reference: reference(rt, number),
        part: Part::Ca(CaPart {
            key: key(rt, alloc),
            settled: settled(rt, alloc, number),
        }),
    }
}

fn keep(rt: &impl Abort, alloc: Global, keeper: &mut MemoryKeeper, row: Row)
    requires { IsStorable row }
{
    keeper.add(alloc, &row).expect(rt, "the row is new");
    drop(row);
}

// An own certificate, two keys that wait, and authorities with the numbers 1 to 64.
fn worked(rt: &impl Abort, alloc: Global) -> MemoryKeeper {
    let mut keeper = MemoryKeeper::new(alloc, KeeperPlan::new(alloc));
    keep(rt, alloc, &mut keeper, own(rt, alloc, 97, false));
    keep(rt, alloc, &mut keeper, own(rt, alloc, 98, true));
    keep(rt, alloc, &mut keeper, own(rt, alloc, 99, false));
    for number in 1..65 {
        keep(rt, alloc, &mut keeper, authority(rt, alloc, number));
    }
    keeper
}

fn has(list: &ByteLists, at: usize, number: u8) -> bool {
    match list.get(at) {
        Some(certificate) => certificate == [number].as_slice(),
        None => false,
    }
}

// Whether the reply repeats the identifier and has these, and lets go of it.
fn says(
    served: Result<Served, NoMemory>,
    code: Code,
    rule: Option<u8>,
    certificates: usize,
) -> bool {
    let says = match &served {
        Ok(served) => {
            let reply = &served.reply;
            reply.id.as_slice() == b"7".as_slice()
                && reply.code == code
                && reply.rule == rule
                && reply.certificates.len() == certificates
        }
        Err(NoMemory) => false,
    };
    drop(served);
    says
}

#[test]
fn a_list_has_the_last_sixty_four_certificates(rt: HostRuntime) {
    let alloc = rt.alloc();
    let mut keeper = worked(&rt, alloc);
    let served = answer_both(alloc, VERIFIER, b"7", &mut keeper).expect(&rt, "memory is there");
    let list = &served.reply.certificates;
    assert!(rt; has(list, 0, 2));
    assert!(rt; has(list, 62, 64));
    assert!(rt; has(list, 63, 98));
    assert!(rt; matches!(&served.event, Event1::Listed(64)));
    assert!(rt; says(Ok(served), Code::CertAvailable, None, 64));
    let own = answer_list(alloc, VERIFIER, b"7", &mut keeper);
    assert!(rt; says(own, Code::CertAvailable, None, 1));
    drop(keeper);
}

#[test]
fn each_call_is_answered(rt: HostRuntime) {
    let alloc = rt.alloc();
    let setup = read_setup(alloc, b"cvca DECVCA ec 03 1096\ndv DEDV\n").expect(&rt, "it is legal");
    let mut keeper = MemoryKeeper::new(alloc, KeeperPlan::new(alloc));
    let mut provider = TableProvider::new(alloc, FailPlan::new(alloc));
    let desk = Desk {
        setup: &setup,
        number: VERIFIER,
        day: day(&rt, b"240101"),
    };
    let issued = answer_request(alloc, &desk, b"7", b"\x01", &mut keeper, &mut provider);
    assert!(rt; says(issued, Code::Syntax, Some(1), 0));
    let mut certificates = ByteLists::new(alloc);
    certificates.push(b"\x01").expect(&rt, "memory is there");
    let taken = answer_receipt(
        alloc,
        VERIFIER,
        b"7",
        &certificates,
        &mut keeper,
        &mut provider,
    );
    assert!(rt;
        matches!(&taken, Ok(Served { event: Event1::Received(it), .. }) if it.items.len() == 1)
    );
    assert!(rt; says(taken, Code::Received, None, 0));
    assert!(rt; says(decline(alloc, b"7"), Code::NotAccepted, None, 0));
    drop(certificates);
    drop(keeper);
    drop(provider);
    drop(setup);
}
