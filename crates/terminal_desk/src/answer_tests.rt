// What no clause says: that a call finds memory for its reply.
//
// Owned values are let go by a call of `drop`: at the end of a scope each list of bytes in them would be proved apart.
ghost use Rattle.std.specs.Prelude.{◌≡◌};

use crate::answer;
use cv_dates::day_from_text;
use desk_core::{Event1, Served};
use eac_base::{ByteLists, FailPlan, NoMemory, Octets, is_same};
use eac_messages::{Code, Message};
use keeper::{KeeperPlan, MemoryKeeper};
use policy_limits::read_setup;
use signature_provider::TableProvider;
use std::alloc::Global;
use std::process::Abort;

fn octets(rt: &impl Abort, alloc: Global, bytes: &[u8]) -> Octets
    ensures { result ≡ bytes.now }
{
    Octets::from_slice(alloc, bytes).expect(rt, "memory is there")
}

fn ask(rt: &impl Abort, alloc: Global, message: Message) -> Result<Served, NoMemory> {
    let setup = read_setup(alloc, b"terminal DETERM1\n").expect(rt, "the setup is legal");
    let mut keeper = MemoryKeeper::new(alloc, KeeperPlan::new(alloc));
    let mut provider = TableProvider::new(alloc, FailPlan::new(alloc));
    let today = day_from_text(b"240108").expect(rt, "the day exists");
    let served = answer(
        alloc,
        &setup,
        0,
        today,
        &message,
        &mut keeper,
        &mut provider,
    );
    drop(message);
    drop(provider);
    drop(keeper);
    drop(setup);
    served
}

// Whether the reply repeats the identifier and has this code alone, and lets go of it.
fn says(served: Served, code: Code) -> bool {
    let reply = &served.reply;
    let says = is_same(reply.id.as_slice(), b"7") && reply.code == code && reply.rule.is_none();
    drop(served);
    says
}

#[test]
fn certificates_are_taken_and_other_calls_declined(rt: HostRuntime) {
    let alloc = rt.alloc();
    let id = octets(&rt, alloc, b"7");
    let mut certificates = ByteLists::new(alloc);
    certificates.push(b"\x01").expect(&rt, "memory is there");
    let message = Message::SendCertificates { id, certificates };
    let served = ask(&rt, alloc, message).expect(&rt, "memory is there");
    assert!(rt; matches!(&served.event, Event1::Received(it) if it.items.len() == 1));
    assert!(rt; says(served, Code::Received));
    let (id, request) = (octets(&rt, alloc, b"7"), octets(&rt, alloc, b"\x01"));
    let message = Message::RequestCertificate { id, request };
    let served = ask(&rt, alloc, message).expect(&rt, "memory is there");
    assert!(rt; matches!(&served.event, Event1::NotServed));
    assert!(rt; says(served, Code::NotAccepted));
    let id = octets(&rt, alloc, b"7");
    let served = ask(&rt, alloc, Message::GetCaCertificates { id }).expect(&rt, "memory is there");
    assert!(rt; matches!(&served.event, Event1::NotServed));
    assert!(rt; says(served, Code::NotAccepted));
}
