// What no clause says: that the calls find memory, and the list of the worked example.
//
// A certificate's bytes are its reference here, so a list can be read. Owned values are let go by a call of `drop`: at
// the end of a scope each list of bytes in them would be proved apart.
ghost use Rattle.keeper.specs.Rows.{IsStorable, IsStorableKey, IsStorableSettled};
ghost use Rattle.std.specs.Prelude.{◌≡◌, ◌≤◌, length};

use crate::{answer, list};
use chat_rights::{Kind, Rights, Role, Template};
use cv_dates::{Day, day_from_text};
use desk_core::{Event1, Served};
use eac_base::{ByteLists, FailPlan, NoMemory, Octets, is_same};
use eac_messages::{Code, Message};
use holder_reference::{Reference, read_reference};
use keeper::{CaPart, Keeper, KeeperPlan, MemoryKeeper, OwnPart, Part, Row, Settled};
use policy_limits::read_setup;
use signature_provider::{Algorithm, Key, TableProvider};
use std::alloc::Global;
use std::process::Abort;

const VERIFIER: u32 = 2;

const SETUP: &[u8] = b"cvca DECVCA ec 03 1096\ncvca FRCVCA ec 03 1096\ndv DEDVBUND\n";

fn day(rt: &impl Abort, text: &[u8; 6]) -> Day {
    day_from_text(text).expect(rt, "the day exists")
}

fn reference(rt: &impl Abort, text: &[u8]) -> Reference {
    read_reference(text).expect(rt, "the reference is legal")
}

fn octets(rt: &impl Abort, alloc: Global, bytes: &[u8]) -> Octets
    ensures { result ≡ bytes.now }
{
    Octets::from_slice(alloc, bytes).expect(rt, "memory is there")
}

fn key(rt: &impl Abort, alloc: Global) -> Key
    ensures { IsStorableKey result }
{
    Key {
        algorithm: Algorithm { arc: 2, last: 3 },
        domain: Octets::new(alloc),
        point: octets(rt, alloc, &[1]),
        cofactor: Octets::new(alloc),
    }
}

fn settled(rt: &impl Abort, alloc: Global, name: &[u8], role: Role) -> Settled
    requires { length name.now ≤ 65535 }
    ensures { IsStorableSettled result }
{
    Settled {
        certificate: octets(rt, alloc, name),
        issuer: reference(rt, b"DECVCA00001"),
        template: Template {
            kind: Kind::Inspection,
            role,
            rights: Rights::from_bits(3).expect(rt, "there are such rights"),
        },
        from: day(rt, b"240101"),
        until: day(rt, b"240331"),
    }
}

fn authority(rt: &impl Abort, alloc: Global, name: &[u8; 11]) -> Row
    ensures { IsStorable result }
{
    Row {
        desk: VERIFIER,
        reference: reference(rt, name),
        part: Part::Ca(CaPart {
            key: key(rt, alloc),
            settled: settled(rt, alloc, name, Role::Cvca),
        }),
    }
}

// A key of the verifier with its certificate, or one that waits for it.
fn own(rt: &impl Abort, alloc: Global, name: &[u8; 13], has_come: bool) -> Row
    ensures { IsStorable result }
{
    let settled = if has_come {
        Some(settled(rt, alloc, name, Role::Domestic))
    } else {
        None
    };
    Row {
        desk: VERIFIER,
        reference: reference(rt, name),
        part: Part::Own(OwnPart {
            authority: reference(rt, b"DECVCA00001").holder(),
            request: Octets::new(alloc),
            key: key(rt, alloc),
            settled,
        }),
    }
}

fn keep(rt: &impl Abort, alloc: Global, keeper: &mut MemoryKeeper, row: Row)
    requires { IsStorable row }
{
    keeper.add(alloc, &row).expect(rt, "the row is new");
    drop(row);
}

fn worked(rt: &impl Abort, alloc: Global) -> MemoryKeeper {
    let mut keeper = MemoryKeeper::new(alloc, KeeperPlan::new(alloc));
    keep(rt, alloc, &mut keeper, authority(rt, alloc, b"DECVCA00001"));
    keep(rt, alloc, &mut keeper, authority(rt, alloc, b"FRCVCA00001"));
    keep(
        rt,
        alloc,
        &mut keeper,
        own(rt, alloc, b"DEDVBUND00001", true),
    );
    keep(
        rt,
        alloc,
        &mut keeper,
        own(rt, alloc, b"DEDVBUND00002", true),
    );
    keep(rt, alloc, &mut keeper, authority(rt, alloc, b"DECVCA00002"));
    keep(
        rt,
        alloc,
        &mut keeper,
        own(rt, alloc, b"DEDVBUND00003", true),
    );
    keep(
        rt,
        alloc,
        &mut keeper,
        own(rt, alloc, b"DEDVBUND00004", false),
    );
    keeper
}

// The certificates, each behind a space.
fn text(rt: &impl Abort, alloc: Global, list: &ByteLists) -> Octets {
    let mut text = Octets::new(alloc);
    for at in 0..list.len() {
        if let Some(certificate) = list.get(at) {
            text.push_all(b" ").expect(rt, "memory is there");
            text.push_all(certificate).expect(rt, "memory is there");
        }
    }
    text
}

fn reads(rt: &impl Abort, alloc: Global, list: &ByteLists, expected: &[u8]) -> bool {
    let text = text(rt, alloc, list);
    let is_expected = is_same(text.as_slice(), expected);
    drop(text);
    is_expected
}

fn ask(
    rt: &impl Abort,
    alloc: Global,
    message: Message,
    keeper: &mut MemoryKeeper,
) -> Result<Served, NoMemory> {
    let setup = read_setup(alloc, SETUP).expect(rt, "the setup is legal");
    let mut provider = TableProvider::new(alloc, FailPlan::new(alloc));
    let today = day(rt, b"240108");
    let served = answer(
        alloc,
        &setup,
        VERIFIER,
        today,
        &message,
        keeper,
        &mut provider,
    );
    drop(message);
    drop(provider);
    drop(setup);
    served
}

// Whether the reply repeats the identifier and has this code and rule, and lets go of it.
fn says(served: Served, code: Code, rule: Option<u8>) -> bool {
    let reply = &served.reply;
    let says = is_same(reply.id.as_slice(), b"7") && reply.code == code && reply.rule == rule;
    drop(served);
    says
}

#[test]
fn authorities_come_before_the_verifiers_own(rt: HostRuntime) {
    let alloc = rt.alloc();
    let mut keeper = worked(&rt, alloc);
    let expected: &[u8] =
        b" DECVCA00001 FRCVCA00001 DECVCA00002 DEDVBUND00001 DEDVBUND00002 DEDVBUND00003";
    let certificates = list(alloc, VERIFIER, &mut keeper).expect(&rt, "no call fails");
    assert!(rt; reads(&rt, alloc, &certificates, expected));
    drop(certificates);
    let id = octets(&rt, alloc, b"7");
    let served = ask(&rt, alloc, Message::GetCaCertificates { id }, &mut keeper);
    let served = served.expect(&rt, "memory is there");
    assert!(rt; matches!(&served.event, Event1::Listed(6)));
    assert!(rt; reads(&rt, alloc, &served.reply.certificates, expected));
    assert!(rt; says(served, Code::CertAvailable, None));
    drop(keeper);
}

#[test]
fn requests_are_judged_and_certificates_taken(rt: HostRuntime) {
    let alloc = rt.alloc();
    let mut keeper = worked(&rt, alloc);
    let (id, request) = (octets(&rt, alloc, b"7"), octets(&rt, alloc, b"\x01"));
    let message = Message::RequestCertificate { id, request };
    let served = ask(&rt, alloc, message, &mut keeper).expect(&rt, "memory is there");
    assert!(rt; matches!(&served.event, Event1::Refused(1)));
    assert!(rt; says(served, Code::Syntax, Some(1)));
    let id = octets(&rt, alloc, b"7");
    let mut certificates = ByteLists::new(alloc);
    certificates.push(b"\x01").expect(&rt, "memory is there");
    let message = Message::SendCertificates { id, certificates };
    let served = ask(&rt, alloc, message, &mut keeper).expect(&rt, "memory is there");
    assert!(rt; matches!(&served.event, Event1::Received(it) if it.items.len() == 1));
    assert!(rt; says(served, Code::Received, None));
    drop(keeper);
}
