// What no clause says: that the calls find memory, and the texts of the answers of a short run.
//
// The events are run at one place, `answers`, which first asks whether they may be. Owned values are let go by a call of
// `drop`: at the end of a scope each list of bytes in them would be proved apart.
ghost use Rattle.std.specs.Prelude.{◌≡◌, ◌≢◌, IsTrue};
ghost use Rattle.policy_limits.specs.Setup.{is_authority, is_verifier, is_inspection_system};
ghost use Rattle.eac_net.specs.Chips.{HasChip};
ghost use Rattle.eac_net.specs.Packets.{AreBetween};
ghost use Rattle.eac_net.specs.Parties.{is_party_of, kind_at};
ghost use Rattle.eac_net.specs.Steps.{FitsLine, HasDay};

mod inspected;

use crate::{Event, World, step};
use chip_slots::MemoryDisk;
use cv_dates::{Day, day_from_text};
use eac_base::{FailPlan, Octets};
use holder_reference::read_reference;
use keeper::{KeeperPlan, MemoryKeeper};
use policy_limits::{PartyKind, Setup, read_setup};
use signature_provider::TableProvider;
use std::alloc::Global;
use std::process::Abort;

const SETUP: &[u8] = b"cvca DECVCA ec 03 1096\n\
      dv DEDVBUND\n\
      terminal DETERM1\n\
      register DECVCA DEDVBUND domestic 03 90 3 bare\n";

// ---- whether an event may be run

fn kind(setup: &Setup, number: u32) -> Option<PartyKind>
    ensures { result ≡ kind_at setup.now number }
{
    match setup.party(number) {
        Some(party) => Some(party.kind),
        None => None,
    }
}

fn is_cvca(setup: &Setup, number: u32) -> bool
    ensures { result ≡ is_party_of is_authority setup.now number }
{
    match kind(setup, number) {
        Some(PartyKind::Cvca { .. }) => true,
        _ => false,
    }
}

fn is_dv(setup: &Setup, number: u32) -> bool
    ensures { result ≡ is_party_of is_verifier setup.now number }
{
    match kind(setup, number) {
        Some(PartyKind::Dv) => true,
        _ => false,
    }
}

fn is_terminal(setup: &Setup, number: u32) -> bool
    ensures { result ≡ is_party_of is_inspection_system setup.now number }
{
    match kind(setup, number) {
        Some(PartyKind::Terminal) => true,
        _ => false,
    }
}

// An authority and a verifier.
fn are_two(setup: &Setup, authority: u32, verifier: u32) -> bool
    ensures authority { IsTrue result → IsTrue (is_party_of is_authority setup.now authority) }
    ensures verifier { IsTrue result → IsTrue (is_party_of is_verifier setup.now verifier) }
    ensures differ { IsTrue result → verifier ≢ authority }
{
    authority != verifier && is_cvca(setup, authority) && is_dv(setup, verifier)
}

fn has_chip(chips: usize, event: &Event) -> bool
    ensures { IsTrue result → HasChip chips event.now }
{
    match event {
        Event::Make { chip, .. } => (*chip as usize) < chips,
        Event::Present { chip, .. } => (*chip as usize) < chips,
        Event::Import { chip, .. } => (*chip as usize) < chips,
        Event::Look { chip } => (*chip as usize) < chips,
        _ => true,
    }
}

fn has_day(today: Option<Day>, event: &Event) -> bool
    ensures { IsTrue result → HasDay today event.now }
{
    match event {
        Event::Day { .. } => true,
        Event::Ask { .. } => today.is_some(),
        Event::Found { .. } => today.is_some(),
        Event::Link { .. } => today.is_some(),
        Event::Trust { .. } => today.is_some(),
        Event::Apply { .. } => today.is_some(),
        Event::Fetch { .. } => today.is_some(),
        Event::Send { .. } => today.is_some(),
        Event::Push { .. } => today.is_some(),
        Event::Deliver { .. } => today.is_some(),
        Event::Make { .. } => today.is_some(),
        Event::Present { .. } => today.is_some(),
        Event::Import { .. } => today.is_some(),
        Event::Look { .. } => today.is_some(),
    }
}

// Of parties it has an authority and a verifier below it.
fn fits(setup: &Setup, event: &Event) -> bool
    ensures { IsTrue result → FitsLine setup.now event.now }
{
    match event {
        Event::Day { .. } => true,
        Event::Ask { bytes, .. } => bytes.len() <= 4096,
        Event::Found { authority } => is_cvca(setup, *authority),
        Event::Link { authority } => is_cvca(setup, *authority),
        Event::Trust { party, authority } => are_two(setup, *authority, *party),
        Event::Apply {
            holder,
            authority,
            root,
        } => *authority == *root && are_two(setup, *authority, *holder),
        Event::Fetch { party, desk } => are_two(setup, *desk, *party),
        Event::Send { from, to, bytes } => bytes.len() <= 4096 && are_two(setup, *from, *to),
        Event::Push { desk, party } => are_two(setup, *desk, *party),
        Event::Deliver { packet } => 0 < *packet,
        Event::Make { authority, .. } => is_cvca(setup, *authority),
        Event::Present { terminal, .. } => is_terminal(setup, *terminal),
        Event::Import { bytes, .. } => bytes.len() <= 4096,
        Event::Look { .. } => true,
    }
}

// ---- a short run

#[derive(Drop)]
struct Run {
    setup: Setup,
    world: World,
    chips: [MemoryDisk; 2],
    keeper: MemoryKeeper,
    provider: TableProvider,
}

// A chip's memory with two slots, in which nothing was written.
fn blank_disk(rt: &impl Abort, alloc: Global) -> MemoryDisk {
    let mut zeros = Octets::new(alloc);
    for _ in 0..2_048 {
        zeros.push_all(&[0; 8]).expect(rt, "memory is there");
    }
    MemoryDisk::new(alloc, zeros, FailPlan::new(alloc), None)
}

fn new_run(rt: &impl Abort, alloc: Global) -> Run
    ensures { AreBetween result.setup result.world.packets }
{
    Run {
        setup: read_setup(alloc, SETUP).expect(rt, "the setup is legal"),
        world: World::new(alloc),
        chips: [blank_disk(rt, alloc), blank_disk(rt, alloc)],
        keeper: MemoryKeeper::new(alloc, KeeperPlan::new(alloc)),
        provider: TableProvider::new(alloc, FailPlan::new(alloc)),
    }
}

// The event may be run, and is answered with this text.
fn answers(rt: &impl Abort, alloc: Global, run: &mut Run, event: Event, text: &[u8])
    requires { AreBetween run.old.setup run.old.world.packets }
    ensures { AreBetween run.new.setup run.new.world.packets }
{
    assert!(rt; has_chip(run.chips.len(), &event));
    assert!(rt; has_day(run.world.day, &event));
    assert!(rt; fits(&run.setup, &event));
    let mut line = Octets::new(alloc);
    let done = step(
        alloc,
        &run.setup,
        &mut run.world,
        &event,
        &mut run.chips,
        &mut run.keeper,
        &mut run.provider,
        &mut line,
    );
    drop(event);
    assert!(rt; done.is_ok());
    assert!(rt; line.as_slice() == text);
    drop(line);
}

fn day(rt: &impl Abort, text: &[u8; 6]) -> Event {
    let day = day_from_text(text).expect(rt, "the day exists");
    Event::Day { day }
}

fn ask(rt: &impl Abort, alloc: Global, reference: &[u8], bytes: &[u8]) -> Event {
    let reference = read_reference(reference).expect(rt, "the reference is legal");
    let bytes = Octets::from_slice(alloc, bytes).expect(rt, "memory is there");
    Event::Ask { reference, bytes }
}

fn send(rt: &impl Abort, alloc: Global, from: u32, to: u32, bytes: &[u8]) -> Event {
    let bytes = Octets::from_slice(alloc, bytes).expect(rt, "memory is there");
    Event::Send { from, to, bytes }
}

#[test]
fn each_event_is_answered(rt: HostRuntime) {
    let alloc = rt.alloc();
    let mut run = new_run(&rt, alloc);
    let apply = Event::Apply {
        holder: 1,
        authority: 0,
        root: 0,
    };
    let trust = Event::Trust {
        party: 1,
        authority: 0,
    };
    let ask = ask(&rt, alloc, b"DEDVBUND00001", &[1, 2]);
    let send = send(&rt, alloc, 0, 1, &[1, 2]);
    answers(&rt, alloc, &mut run, day(&rt, b"240101"), b"");
    answers(&rt, alloc, &mut run, ask, b"issued DEDVBUND00001 240101");
    answers(
        &rt,
        alloc,
        &mut run,
        Event::Found { authority: 0 },
        b"founded DECVCA00001",
    );
    answers(&rt, alloc, &mut run, trust, b"trusted DECVCA00001");
    answers(&rt, alloc, &mut run, apply, b"packet 1 DEDVBUND00001");
    answers(
        &rt,
        alloc,
        &mut run,
        Event::Deliver { packet: 1 },
        b"issued DEDVBUND00001 reply 2",
    );
    answers(
        &rt,
        alloc,
        &mut run,
        Event::Deliver { packet: 2 },
        b"stored DEDVBUND00001",
    );
    answers(
        &rt,
        alloc,
        &mut run,
        Event::Fetch { party: 1, desk: 0 },
        b"packet 3",
    );
    answers(
        &rt,
        alloc,
        &mut run,
        Event::Push { desk: 0, party: 1 },
        b"packet 4",
    );
    answers(&rt, alloc, &mut run, send, b"packet 5");
    answers(&rt, alloc, &mut run, day(&rt, b"240102"), b"");
    answers(
        &rt,
        alloc,
        &mut run,
        Event::Link { authority: 0 },
        b"linked DECVCA00002",
    );
    drop(run);
}

#[test]
fn chips_are_made_and_inspected(rt: HostRuntime) {
    let alloc = rt.alloc();
    let mut run = new_run(&rt, alloc);
    let found = Event::Found { authority: 0 };
    let early = Event::Make {
        chip: 0,
        authority: 0,
    };
    let make = Event::Make {
        chip: 0,
        authority: 0,
    };
    let again = Event::Make {
        chip: 0,
        authority: 0,
    };
    let present = Event::Present {
        chip: 0,
        terminal: 2,
    };
    let import = Event::Import {
        chip: 1,
        bytes: Octets::from_slice(alloc, &[1, 2]).expect(&rt, "memory is there"),
    };
    answers(&rt, alloc, &mut run, day(&rt, b"240101"), b"");
    answers(&rt, alloc, &mut run, early, b"refused unfounded");
    answers(&rt, alloc, &mut run, found, b"founded DECVCA00001");
    answers(&rt, alloc, &mut run, make, b"made DECVCA00001");
    answers(&rt, alloc, &mut run, again, b"refused made");
    answers(
        &rt,
        alloc,
        &mut run,
        Event::Look { chip: 0 },
        b"day 240101 points DECVCA00001 generation 0",
    );
    answers(&rt, alloc, &mut run, Event::Look { chip: 1 }, b"nochip");
    answers(&rt, alloc, &mut run, present, b"nochain");
    answers(&rt, alloc, &mut run, import, b"nochip");
    drop(run);
}
