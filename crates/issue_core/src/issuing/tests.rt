// What no clause says: that the calls find memory, the bytes of worked examples, and a request for each rule.
//
// Owned values are let go by a call of `drop`: at the end of a scope each list of bytes in them would be proved apart.
ghost use Rattle.std.specs.Prelude.{◌≡◌};
ghost use Rattle.keeper.specs.Rows.{IsStorable, IsStorableKey, IsStorableSettled};

use crate::issuing::deciding::decide;
use crate::issuing::seen::{Held, Seen};
use crate::issuing::signer_row::Signer;
use crate::{Answer, IssueFault, Rule, issue};
use chat_rights::{Kind, Rights, Role, Template};
use cv_dates::{Day, day_from_text};
use cvc_grammar::{RequestView, view_request};
use eac_base::{FailPlan, Octets};
use holder_reference::{Reference, read_reference};
use keeper::doubles::LateKeeper;
use keeper::{
    CaPart, IssuedPart, Keeper, KeeperPlan, MemoryKeeper, OwnPart, Part, Row, Settled, Table,
};
use policy_limits::{First, Registration, Setup, read_setup};
use signature_provider::{Algorithm, FormName, Key, SignatureProvider, TableProvider, plain_form};
use std::alloc::Global;
use std::process::Abort;

// A request of a verifier, and the certificate that an authority gives it on 2024-01-01. Signatures are numbers.
const REQUEST: &[u8; 150] = b"\
    \x7f\x21\x81\x92\
    \x7f\x4e\x4c\
    \x5f\x29\x01\x00\
    \x42\x0bDECVCA00001\
    \x7f\x49\x28\
    \x06\x0a\x04\x00\x7f\x00\x07\x02\x02\x02\x02\x03\
    \x81\x01\x01\
    \x82\x01\x02\
    \x83\x01\x03\
    \x84\x01\x04\
    \x85\x01\x05\
    \x86\x08\x00\x00\x00\x00\x00\x00\x00\x02\
    \x87\x01\x01\
    \x5f\x20\x0dDEDVBUND00001\
    \x5f\x37\x40\x00\x00\x00\x00\x00\x00\x00\x00\x00\x00\x00\x00\x00\x00\x00\x00\x00\x00\x00\x00\x00\x00\x00\
    \x00\x00\x00\x00\x00\x00\x00\x00\x00\x00\x00\x00\x00\x00\x00\x00\x00\x00\x00\x00\x00\x00\x00\x00\x00\x00\
    \x00\x00\x00\x00\x00\x00\x00\x00\x00\x00\x00\x00\x00\x00\x02";

const CERTIFICATE: &[u8; 167] = b"\
    \x7f\x21\x81\xa3\
    \x7f\x4e\x5d\
    \x5f\x29\x01\x00\
    \x42\x0bDECVCA00001\
    \x7f\x49\x16\
    \x06\x0a\x04\x00\x7f\x00\x07\x02\x02\x02\x02\x03\
    \x86\x08\x00\x00\x00\x00\x00\x00\x00\x02\
    \x5f\x20\x0dDEDVBUND00001\
    \x7f\x4c\x0e\x06\x09\x04\x00\x7f\x00\x07\x03\x01\x02\x01\x53\x01\x83\
    \x5f\x25\x06\x02\x04\x00\x01\x00\x01\
    \x5f\x24\x06\x02\x04\x00\x03\x03\x01\
    \x5f\x37\x40\x00\x00\x00\x00\x00\x00\x00\x00\x00\x00\x00\x00\x00\x00\x00\x00\x00\x00\x00\x00\x00\x00\x00\
    \x00\x00\x00\x00\x00\x00\x00\x00\x00\x00\x00\x00\x00\x00\x00\x00\x00\x00\x00\x00\x00\x00\x00\x00\x00\x00\
    \x00\x00\x00\x00\x00\x00\x00\x00\x00\x00\x00\x00\x00\x00\x03";

const BARE: &[u8] =
    b"cvca DECVCA ec 03 1096\ndv DEDVBUND\nregister DECVCA DEDVBUND domestic 03 90 3 bare\n";

const HOME: &[u8] =
    b"cvca DECVCA ec 03 1096\ndv DEDVBUND\nregister DECVCA DEDVBUND domestic 03 90 1 home:DECVCA\n";

const SUSPENDED: &[u8] =
    b"cvca DECVCA ec 03 1096\ndv DEDVBUND\nregister DECVCA DEDVBUND domestic 03 90 3 bare suspended\n";

fn octets(rt: &impl Abort, alloc: Global, bytes: &[u8]) -> Octets
    ensures { result ≡ bytes.now }
{
    Octets::from_slice(alloc, bytes).expect(rt, "memory is there")
}

fn day(rt: &impl Abort, text: &[u8; 6]) -> Day {
    day_from_text(text).expect(rt, "the day exists")
}

fn reference(rt: &impl Abort, text: &[u8]) -> Reference {
    read_reference(text).expect(rt, "the reference is legal")
}

// The key of this number, on a domain that ends with this byte.
fn key(rt: &impl Abort, alloc: Global, number: u8, last: u8) -> Key
    ensures { IsStorableKey result }
{
    let domain = [
        0x81, 1, 1, 0x82, 1, 2, 0x83, 1, 3, 0x84, 1, 4, 0x85, 1, last,
    ];
    Key {
        algorithm: Algorithm { arc: 2, last: 3 },
        domain: octets(rt, alloc, &domain),
        point: octets(rt, alloc, &[0, 0, 0, 0, 0, 0, 0, number]),
        cofactor: octets(rt, alloc, &[0x87, 1, 1]),
    }
}

fn settled(rt: &impl Abort, alloc: Global, until: &[u8; 6]) -> Settled
    ensures { IsStorableSettled result }
{
    Settled {
        certificate: octets(rt, alloc, CERTIFICATE),
        issuer: reference(rt, b"DECVCA00001"),
        template: Template {
            kind: Kind::Inspection,
            role: Role::Cvca,
            rights: Rights::from_bits(3).expect(rt, "there are such rights"),
        },
        from: day(rt, b"240101"),
        until: day(rt, until),
    }
}

// The authority's own row, settled until the end of three years.
fn own(rt: &impl Abort, alloc: Global, last: u8) -> Row
    ensures { IsStorable result }
{
    let reference = reference(rt, b"DECVCA00001");
    Row {
        desk: 0,
        reference,
        part: Part::Own(OwnPart {
            authority: reference.holder(),
            request: Octets::new(alloc),
            key: key(rt, alloc, 1, last),
            settled: Some(settled(rt, alloc, b"270101")),
        }),
    }
}

// A home authority's row under the reference of the desk's own.
fn home(rt: &impl Abort, alloc: Global, until: &[u8; 6]) -> Row
    ensures { IsStorable result }
{
    Row {
        desk: 0,
        reference: reference(rt, b"DECVCA00001"),
        part: Part::Ca(CaPart {
            key: key(rt, alloc, 1, 5),
            settled: settled(rt, alloc, until),
        }),
    }
}

// An earlier certificate of the verifier, under this reference.
fn earlier(rt: &impl Abort, alloc: Global, name: &[u8]) -> Row
    ensures { IsStorable result }
{
    Row {
        desk: 0,
        reference: reference(rt, name),
        part: Part::Issued(IssuedPart {
            request: octets(rt, alloc, b"\x01"),
            key: key(rt, alloc, 2, 5),
            settled: settled(rt, alloc, b"270101"),
        }),
    }
}

fn keep(rt: &impl Abort, alloc: Global, keeper: &mut MemoryKeeper, row: Row)
    requires { IsStorable row }
{
    keeper.add(alloc, &row).expect(rt, "the row is new");
    drop(row);
}

// The rows of a desk with its own key on the domain of the request.
fn own_rows(rt: &impl Abort, alloc: Global) -> MemoryKeeper {
    let mut keeper = MemoryKeeper::new(alloc, KeeperPlan::new(alloc));
    keep(rt, alloc, &mut keeper, own(rt, alloc, 5));
    keeper
}

fn new_key(rt: &impl Abort, alloc: Global, provider: &mut TableProvider) -> Key {
    let form = plain_form(alloc, FormName::Ec).expect(rt, "memory is there");
    let key = provider.new_key(alloc, &form).expect(rt, "no call fails");
    drop(form);
    key
}

fn sign(rt: &impl Abort, alloc: Global, provider: &mut TableProvider, key: Key, message: &[u8]) {
    let signature = provider.sign(alloc, &key, message);
    drop(key);
    drop(signature.expect(rt, "no call fails"));
}

// Keys 1 and 2 are made; signature 1 is some other one, signature 2 that of the request where it is to be good.
fn provider(rt: &impl Abort, alloc: Global, plan: FailPlan, good: bool) -> TableProvider {
    let mut provider = TableProvider::new(alloc, plan);
    let authority = new_key(rt, alloc, &mut provider);
    let verifier = new_key(rt, alloc, &mut provider);
    sign(rt, alloc, &mut provider, authority, b"");
    let whole = REQUEST.as_slice();
    let message = if good { &whole[4..83] } else { &whole[..0] };
    sign(rt, alloc, &mut provider, verifier, message);
    provider
}

fn setup(rt: &impl Abort, alloc: Global, text: &[u8]) -> Setup {
    read_setup(alloc, text).expect(rt, "the setup is legal")
}

// Asks the desk of the bare setup for the request's certificate on this day.
fn ask<B: Keeper>(
    rt: &impl Abort,
    alloc: Global,
    today: &[u8; 6],
    keeper: &mut B,
    provider: &mut TableProvider,
) -> Result<Answer, IssueFault> {
    let setup = setup(rt, alloc, BARE);
    let answer = issue(alloc, &setup, 0, day(rt, today), REQUEST, keeper, provider);
    drop(setup);
    answer
}

fn is_issued(answer: Result<Answer, IssueFault>) -> bool {
    let is_issued =
        matches!(&answer, Ok(Answer::Issued(it)) if it.as_slice() == CERTIFICATE.as_slice());
    drop(answer);
    is_issued
}

fn is_kept(answer: Result<Answer, IssueFault>) -> bool {
    let is_kept =
        matches!(&answer, Ok(Answer::Kept(it)) if it.as_slice() == CERTIFICATE.as_slice());
    drop(answer);
    is_kept
}

/// The number of the rule that was answered.
fn broken(answer: Result<Answer, IssueFault>) -> Option<u8> {
    let broken = match &answer {
        Ok(Answer::Refused(rule)) => Some(rule.number()),
        _ => None,
    };
    drop(answer);
    broken
}

fn has_failed(answer: Result<Answer, IssueFault>) -> bool {
    let has_failed = matches!(&answer, Err(IssueFault::ProviderFault));
    drop(answer);
    has_failed
}

#[test]
fn a_request_is_issued_and_its_repeat_is_kept(rt: HostRuntime) {
    let alloc = rt.alloc();
    let mut keeper = own_rows(&rt, alloc);
    let mut provider = provider(&rt, alloc, FailPlan::new(alloc), true);
    let first = ask(&rt, alloc, b"240101", &mut keeper, &mut provider);
    assert!(rt; is_issued(first));
    let again = ask(&rt, alloc, b"240102", &mut keeper, &mut provider);
    assert!(rt; is_kept(again));
    drop(keeper);
    drop(provider);
}

// Another row under the number came between the look and the adding: it decides.
#[test]
fn a_row_that_came_between_is_answered(rt: HostRuntime) {
    let alloc = rt.alloc();
    let mut keeper = LateKeeper::new(own_rows(&rt, alloc));
    let mut provider = provider(&rt, alloc, FailPlan::new(alloc), true);
    let first = ask(&rt, alloc, b"240101", &mut keeper, &mut provider);
    assert!(rt; is_issued(first));
    let again = ask(&rt, alloc, b"240101", &mut keeper, &mut provider);
    assert!(rt; is_kept(again));
    drop(keeper);
    drop(provider);
}

#[test]
fn another_request_that_came_between_is_used(rt: HostRuntime) {
    let alloc = rt.alloc();
    let mut rows = own_rows(&rt, alloc);
    keep(&rt, alloc, &mut rows, earlier(&rt, alloc, b"DEDVBUND00001"));
    let mut keeper = LateKeeper::new(rows);
    let mut provider = provider(&rt, alloc, FailPlan::new(alloc), true);
    let answer = ask(&rt, alloc, b"240101", &mut keeper, &mut provider);
    assert!(rt; broken(answer) == Some(2));
    drop(keeper);
    drop(provider);
}

// The first verdict is the fifth call of the provider.
#[test]
fn a_failing_verdict_adds_no_row_and_the_request_is_issued_later(rt: HostRuntime) {
    let alloc = rt.alloc();
    let mut keeper = own_rows(&rt, alloc);
    let mut plan = FailPlan::new(alloc);
    assert!(rt; plan.push(5).is_ok());
    let mut provider = provider(&rt, alloc, plan, true);
    let first = ask(&rt, alloc, b"240101", &mut keeper, &mut provider);
    assert!(rt; has_failed(first));
    let count = keeper.count(alloc, Table::Issued, 0).ok();
    assert!(rt; matches!(count, Some(0)));
    let second = ask(&rt, alloc, b"240101", &mut keeper, &mut provider);
    assert!(rt; is_issued(second));
    drop(keeper);
    drop(provider);
}

/// What a request comes upon.
#[derive(Clone, Copy)]
struct World {
    /// The request lacks its last byte.
    cut: bool,
    outer: bool,
    setup: &'static [u8],
    day: &'static [u8; 6],
    own: bool,
    /// The last byte of the domain of the desk's key; 5 is that of the request.
    domain: u8,
    /// Until when the home authority's certificate is valid.
    home: &'static [u8; 6],
    /// Another request of the same number was served.
    used: bool,
    /// Another certificate of the holder is valid until 2027-01-01.
    live: bool,
    good: bool,
}

const WORKED: World = World {
    cut: false,
    outer: false,
    setup: BARE,
    day: b"240101",
    own: true,
    domain: 5,
    home: b"270101",
    used: false,
    live: false,
    good: true,
};

fn asked(rt: &impl Abort, alloc: Global, world: &World) -> Octets {
    let whole = REQUEST.as_slice();
    let bare = if world.cut { &whole[..149] } else { whole };
    if !world.outer {
        return octets(rt, alloc, bare);
    }
    let mut request = octets(rt, alloc, b"\x67\x81\xe6");
    let named = b"\x42\x0bDECVCA00001\x5f\x37\x40".as_slice();
    for part in [bare, named, &[7; 64]] {
        request.push_all(part).expect(rt, "memory is there");
    }
    request
}

fn rows(rt: &impl Abort, alloc: Global, world: &World) -> MemoryKeeper {
    let mut keeper = MemoryKeeper::new(alloc, KeeperPlan::new(alloc));
    if world.own {
        keep(rt, alloc, &mut keeper, own(rt, alloc, world.domain));
    }
    keep(rt, alloc, &mut keeper, home(rt, alloc, world.home));
    if world.used {
        keep(rt, alloc, &mut keeper, earlier(rt, alloc, b"DEDVBUND00001"));
    }
    if world.live {
        keep(rt, alloc, &mut keeper, earlier(rt, alloc, b"DEDVBUND00009"));
    }
    keeper
}

fn served(rt: &impl Abort, alloc: Global, world: &World) -> Result<Answer, IssueFault> {
    let mut keeper = rows(rt, alloc, world);
    let mut provider = provider(rt, alloc, FailPlan::new(alloc), world.good);
    let setup = setup(rt, alloc, world.setup);
    let request = asked(rt, alloc, world);
    let answer = issue(
        alloc,
        &setup,
        0,
        day(rt, world.day),
        request.as_slice(),
        &mut keeper,
        &mut provider,
    );
    drop(keeper);
    drop(provider);
    drop(setup);
    drop(request);
    answer
}

/// For each rule a world in which it is the first that is broken, and wherever that can be the next ones are broken
/// too.
const FIRST: [(u8, World); 17] = [
    (
        1,
        World {
            cut: true,
            setup: SUSPENDED,
            ..WORKED
        },
    ),
    (
        2,
        World {
            used: true,
            setup: SUSPENDED,
            ..WORKED
        },
    ),
    (
        3,
        World {
            setup: SUSPENDED,
            own: false,
            good: false,
            ..WORKED
        },
    ),
    (
        3,
        World {
            setup: b"cvca DECVCA ec 03 1096\n",
            own: false,
            ..WORKED
        },
    ),
    (
        4,
        World {
            own: false,
            setup: HOME,
            ..WORKED
        },
    ),
    (
        5,
        World {
            day: b"270102",
            domain: 6,
            ..WORKED
        },
    ),
    (
        6,
        World {
            domain: 6,
            setup: HOME,
            ..WORKED
        },
    ),
    (
        7,
        World {
            setup: HOME,
            live: true,
            ..WORKED
        },
    ),
    (
        7,
        World {
            live: true,
            day: b"261231",
            ..WORKED
        },
    ),
    (
        8,
        World {
            outer: true,
            live: true,
            ..WORKED
        },
    ),
    (
        9,
        World {
            outer: true,
            setup: HOME,
            home: b"240102",
            day: b"240103",
            live: true,
            ..WORKED
        },
    ),
    (
        10,
        World {
            outer: true,
            setup: HOME,
            live: true,
            day: b"261219",
            ..WORKED
        },
    ),
    (
        10,
        World {
            outer: true,
            setup: HOME,
            live: true,
            good: false,
            ..WORKED
        },
    ),
    (
        11,
        World {
            day: b"261219",
            good: false,
            ..WORKED
        },
    ),
    (
        13,
        World {
            good: false,
            ..WORKED
        },
    ),
    (
        13,
        World {
            outer: true,
            setup: HOME,
            good: false,
            ..WORKED
        },
    ),
    (
        14,
        World {
            outer: true,
            setup: HOME,
            ..WORKED
        },
    ),
];

#[test]
fn the_first_rule_that_is_broken_is_answered(rt: HostRuntime) {
    let alloc = rt.alloc();
    for (rule, world) in &FIRST {
        let broken = broken(served(&rt, alloc, world));
        assert!(rt; broken == Some(*rule));
    }
}

// What is answered on 2024-01-01 at a desk that counts so many rows, with a key that is valid until this day.
fn first_counted(
    rt: &impl Abort,
    alloc: Global,
    request: &RequestView,
    until: &[u8; 6],
    count: u64,
) -> Option<Rule> {
    let registration = Registration {
        desk: 0,
        holder: request.holder.holder(),
        role: Role::Domestic,
        rights: Rights::from_bits(3).expect(rt, "there are such rights"),
        days: 90,
        live_limit: 3,
        first: First::Bare,
        suspended: false,
    };
    let seen = Seen {
        signer: Some(Signer {
            reference: reference(rt, b"DECVCA00001"),
            key: key(rt, alloc, 1, 5),
            settled: settled(rt, alloc, until),
        }),
        voucher: None,
        held: Held { all: 0, live: 0 },
        count,
    };
    let first = match decide(day(rt, b"240101"), request, &registration, &seen) {
        Ok(_) => None,
        Err(rule) => Some(rule),
    };
    drop(seen);
    first
}

fn are_answered(rt: &impl Abort, alloc: Global, request: &[u8]) -> bool {
    let Ok(view) = view_request(request) else {
        return false;
    };
    first_counted(rt, alloc, &view, b"240114", 100_000) == Some(Rule::Short)
        && first_counted(rt, alloc, &view, b"240115", 100_000) == Some(Rule::Full)
        && first_counted(rt, alloc, &view, b"240115", 99_999).is_none()
}

// 100,000 rows don't stand in a test, so here they are only said to have been counted.
#[test]
fn a_full_desk_is_told_after_a_short_time(rt: HostRuntime) {
    let alloc = rt.alloc();
    let request = octets(&rt, alloc, REQUEST.as_slice());
    assert!(rt; are_answered(&rt, alloc, request.as_slice()));
    drop(request);
}
