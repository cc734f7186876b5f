// What no clause says: that the calls find memory, and the chains of worked rows.
//
// A certificate's bytes are its reference here, so a chain can be read. Owned values are let go by a call of `drop`: at
// the end of a scope each list of bytes in them would be proved apart.
ghost use Rattle.std.specs.Prelude.{◌≤◌, length, IfSome};
ghost use Rattle.keeper.specs.Rows.{IsStorable, IsStorableKey, IsStorableSettled};

use crate::{Chain, ChainRefusal, SearchRefusal, chain_for, find_chain};
use chat_rights::{Kind, Rights, Role, Template};
use cv_dates::day_from_text;
use eac_base::{Octets, is_same};
use holder_reference::{Reference, read_reference};
use keeper::doubles::FadingKeeper;
use keeper::{CaPart, Keeper, KeeperPlan, MemoryKeeper, Moment, OwnPart, Part, Row, Rows, Settled};
use signature_provider::{Algorithm, Key};
use std::alloc::Global;
use std::process::Abort;

const TERMINAL: u32 = 3;

fn reference(rt: &impl Abort, text: &[u8]) -> Reference {
    read_reference(text).expect(rt, "the reference is legal")
}

fn key(rt: &impl Abort, alloc: Global) -> Key
    ensures { IsStorableKey result }
{
    Key {
        algorithm: Algorithm { arc: 2, last: 3 },
        domain: Octets::new(alloc),
        point: Octets::from_slice(alloc, &[1]).expect(rt, "memory is there"),
        cofactor: Octets::new(alloc),
    }
}

fn settled(
    rt: &impl Abort,
    alloc: Global,
    name: &[u8],
    issuer: &[u8],
    role: Role,
    from: &[u8],
) -> Settled
    requires { length name.now ≤ 65535 }
    ensures { IsStorableSettled result }
{
    Settled {
        certificate: Octets::from_slice(alloc, name).expect(rt, "memory is there"),
        issuer: reference(rt, issuer),
        template: Template {
            kind: Kind::Inspection,
            role,
            rights: Rights::from_bits(3).expect(rt, "the rights are legal"),
        },
        from: day_from_text(from).expect(rt, "the day is legal"),
        until: day_from_text(b"251231").expect(rt, "the day is legal"),
    }
}

// The certificate of an authority under a reference, issued by another.
fn authority(rt: &impl Abort, alloc: Global, name: &[u8], issuer: &[u8], role: Role) -> Row
    requires { length name.now ≤ 65535 }
    ensures { IsStorable result }
{
    Row {
        desk: TERMINAL,
        reference: reference(rt, name),
        part: Part::Ca(CaPart {
            key: key(rt, alloc),
            settled: settled(rt, alloc, name, issuer, role, b"240101"),
        }),
    }
}

// A key of the terminal with its certificate.
fn own(rt: &impl Abort, alloc: Global, name: &[u8], issuer: &[u8], from: &[u8]) -> Row
    requires { length name.now ≤ 65535 }
    ensures { IsStorable result }
{
    Row {
        desk: TERMINAL,
        reference: reference(rt, name),
        part: Part::Own(OwnPart {
            authority: reference(rt, issuer).holder(),
            request: Octets::new(alloc),
            key: key(rt, alloc),
            settled: Some(settled(rt, alloc, name, issuer, Role::Terminal, from)),
        }),
    }
}

// A key of the terminal that waits for its certificate.
fn waiting(rt: &impl Abort, alloc: Global, name: &[u8], issuer: &[u8]) -> Row
    ensures { IsStorable result }
{
    Row {
        desk: TERMINAL,
        reference: reference(rt, name),
        part: Part::Own(OwnPart {
            authority: reference(rt, issuer).holder(),
            request: Octets::new(alloc),
            key: key(rt, alloc),
            settled: None,
        }),
    }
}

fn keep(rt: &impl Abort, alloc: Global, keeper: &mut MemoryKeeper, row: Row)
    requires { IsStorable row }
{
    let done = keeper.add(alloc, &row);
    drop(row);
    let is_done = done.is_ok();
    drop(done);
    assert!(rt; is_done);
}

// The rows of a terminal with a home authority that has made a link, a foreign one, and a verifier of both.
fn keep_authorities(rt: &impl Abort, alloc: Global, keeper: &mut MemoryKeeper) {
    let root = authority(rt, alloc, b"DECVCA00001", b"DECVCA00001", Role::Cvca);
    keep(rt, alloc, keeper, root);
    let foreign = authority(rt, alloc, b"FRCVCA00001", b"FRCVCA00001", Role::Cvca);
    keep(rt, alloc, keeper, foreign);
    let at_home = authority(rt, alloc, b"DEDVBUND00001", b"DECVCA00001", Role::Domestic);
    keep(rt, alloc, keeper, at_home);
    let abroad = authority(rt, alloc, b"DEDVBUND00002", b"FRCVCA00001", Role::Foreign);
    keep(rt, alloc, keeper, abroad);
    let link = authority(rt, alloc, b"DECVCA00002", b"DECVCA00001", Role::Cvca);
    keep(rt, alloc, keeper, link);
    let linked = authority(rt, alloc, b"DEDVBUND00003", b"DECVCA00002", Role::Domestic);
    keep(rt, alloc, keeper, linked);
}

fn keep_own(rt: &impl Abort, alloc: Global, keeper: &mut MemoryKeeper) {
    let first = own(rt, alloc, b"DETERM100001", b"DEDVBUND00001", b"240101");
    keep(rt, alloc, keeper, first);
    let abroad = own(rt, alloc, b"DETERM100002", b"DEDVBUND00002", b"240101");
    keep(rt, alloc, keeper, abroad);
    let renewed = own(rt, alloc, b"DETERM100003", b"DEDVBUND00001", b"240108");
    keep(rt, alloc, keeper, renewed);
    let newest = own(rt, alloc, b"DETERM100004", b"DEDVBUND00003", b"240108");
    keep(rt, alloc, keeper, newest);
    let waiting = waiting(rt, alloc, b"DETERM100005", b"DEDVBUND00003");
    keep(rt, alloc, keeper, waiting);
}

fn worked(rt: &impl Abort, alloc: Global, plan: KeeperPlan) -> MemoryKeeper {
    let mut keeper = MemoryKeeper::new(alloc, plan);
    keep_authorities(rt, alloc, &mut keeper);
    keep_own(rt, alloc, &mut keeper);
    keeper
}

// The certificates of a chain, each behind a space.
fn text(rt: &impl Abort, alloc: Global, chain: &Chain) -> Octets {
    let mut text = Octets::new(alloc);
    for at in 0..chain.len() {
        if let Some(certificate) = chain.get(at) {
            text.push_all(b" ").expect(rt, "memory is there");
            text.push_all(certificate).expect(rt, "memory is there");
        }
    }
    text
}

fn reads(rt: &impl Abort, alloc: Global, chain: Chain, expected: &[u8]) -> bool {
    let text = text(rt, alloc, &chain);
    drop(chain);
    let is_expected = is_same(text.as_slice(), expected);
    drop(text);
    is_expected
}

fn shows(
    rt: &impl Abort,
    alloc: Global,
    keeper: &mut MemoryKeeper,
    car: &[u8],
    expected: &[u8],
) -> bool {
    let cars = [reference(rt, car)];
    match find_chain(alloc, TERMINAL, &cars, keeper) {
        Ok(chain) => reads(rt, alloc, chain, expected),
        Err(_) => false,
    }
}

#[test]
fn a_chip_is_shown_the_newest_chain_up_to_its_trust_point(rt: HostRuntime) {
    let alloc = rt.alloc();
    let mut keeper = worked(&rt, alloc, KeeperPlan::new(alloc));
    let through_the_link: &[u8] = b" DECVCA00002 DEDVBUND00003 DETERM100004";
    assert!(rt; shows(&rt, alloc, &mut keeper, b"DECVCA00001", through_the_link));
    let from_the_link: &[u8] = b" DEDVBUND00003 DETERM100004";
    assert!(rt; shows(&rt, alloc, &mut keeper, b"DECVCA00002", from_the_link));
    let abroad: &[u8] = b" DEDVBUND00002 DETERM100002";
    assert!(rt; shows(&rt, alloc, &mut keeper, b"FRCVCA00001", abroad));
    drop(keeper);
}

fn refusal(
    rt: &impl Abort,
    alloc: Global,
    keeper: &mut MemoryKeeper,
    car: &[u8],
) -> Option<SearchRefusal> {
    let cars = [reference(rt, car)];
    match find_chain(alloc, TERMINAL, &cars, keeper) {
        Ok(chain) => {
            drop(chain);
            None
        }
        Err(refusal) => Some(refusal),
    }
}

#[test]
fn a_chip_of_another_country_is_shown_none(rt: HostRuntime) {
    let alloc = rt.alloc();
    let mut keeper = worked(&rt, alloc, KeeperPlan::new(alloc));
    let refusal = refusal(&rt, alloc, &mut keeper, b"UTCVCA00001");
    assert!(rt; matches!(refusal, Some(SearchRefusal::NoChain)));
    drop(keeper);
}

#[test]
fn a_keeper_that_fails_is_told(rt: HostRuntime) {
    let alloc = rt.alloc();
    let mut plan = KeeperPlan::new(alloc);
    // the rows of authorities are read by the thirteenth call
    assert!(rt; plan.push((13, Moment::Before)).is_ok());
    let mut keeper = worked(&rt, alloc, plan);
    let refusal = refusal(&rt, alloc, &mut keeper, b"DECVCA00001");
    assert!(rt; matches!(refusal, Some(SearchRefusal::KeeperFault)));
    drop(keeper);
}

#[test]
fn any_keeper_can_be_searched(rt: HostRuntime) {
    let alloc = rt.alloc();
    let mut keeper = FadingKeeper::new(worked(&rt, alloc, KeeperPlan::new(alloc)));
    let cars = [reference(&rt, b"FRCVCA00001")];
    let is_found = match find_chain(alloc, TERMINAL, &cars, &mut keeper) {
        Ok(chain) => reads(&rt, alloc, chain, b" DEDVBUND00002 DETERM100002"),
        Err(_) => false,
    };
    assert!(rt; is_found);
    drop(keeper);
}

fn push(rt: &impl Abort, rows: &mut Rows, row: Row) {
    assert!(rt; rows.push(&row).is_ok());
    drop(row);
}

// The chain by rows of which two have one reference.
fn chain_by_doubles(rt: &impl Abort, alloc: Global, car: &[u8]) -> Result<Chain, ChainRefusal> {
    let mut cas = Rows::new(alloc);
    let first = authority(rt, alloc, b"DEDVBUND00001", b"DECVCA00001", Role::Domestic);
    push(rt, &mut cas, first);
    let second = authority(rt, alloc, b"DEDVBUND00001", b"FRCVCA00001", Role::Foreign);
    push(rt, &mut cas, second);
    let mut rows = Rows::new(alloc);
    let own = own(rt, alloc, b"DETERM100001", b"DEDVBUND00001", b"240101");
    push(rt, &mut rows, own);
    let cars = [reference(rt, car)];
    let chain = chain_for(alloc, &cars, &rows, &cas);
    drop(cas);
    drop(rows);
    chain
}

fn is_none(chain: Result<Chain, ChainRefusal>) -> bool {
    match chain {
        Ok(chain) => {
            drop(chain);
            false
        }
        Err(refusal) => refusal == ChainRefusal::NoChain,
    }
}

#[test]
fn of_two_authorities_with_one_reference_the_first_is_meant(rt: HostRuntime) {
    let alloc = rt.alloc();
    let at_home = match chain_by_doubles(&rt, alloc, b"DECVCA00001") {
        Ok(chain) => reads(&rt, alloc, chain, b" DEDVBUND00001 DETERM100001"),
        Err(_) => false,
    };
    assert!(rt; at_home);
    assert!(rt; is_none(chain_by_doubles(&rt, alloc, b"FRCVCA00001")));
}
