// What no clause says: that the calls find memory, the bytes of the worked example, and a case for each refusal.
//
// Owned values are let go by a call of `drop`: at the end of a scope each list of bytes in them would be proved apart.
ghost use Rattle.keeper.specs.Rows.{IsStorable};

use crate::terms::terms_of;
use crate::{Founded, Linked, found, new_link};
use cv_dates::{Day, day_from_text};
use eac_base::FailPlan;
use holder_core::HolderFault;
use holder_reference::{Reference, read_reference};
use keeper::doubles::LateKeeper;
use keeper::{Keeper, KeeperPlan, MemoryKeeper, Moment, Part, Row, Table};
use policy_limits::{Setup, read_setup};
use signature_provider::{FormName, SignatureProvider, TableProvider, plain_form};
use std::alloc::Global;
use std::process::Abort;

// The first certificate of an authority on 2024-01-01, under the first key and with the first signature. Signatures are
// numbers.
pub(crate) const FOUNDING: &[u8; 183] = b"\
    \x7f\x21\x81\xb3\
    \x7f\x4e\x6d\
    \x5f\x29\x01\x00\
    \x42\x0bDECVCA00001\
    \x7f\x49\x28\
    \x06\x0a\x04\x00\x7f\x00\x07\x02\x02\x02\x02\x03\
    \x81\x01\x01\
    \x82\x01\x02\
    \x83\x01\x03\
    \x84\x01\x04\
    \x85\x01\x05\
    \x86\x08\x00\x00\x00\x00\x00\x00\x00\x01\
    \x87\x01\x01\
    \x5f\x20\x0bDECVCA00001\
    \x7f\x4c\x0e\x06\x09\x04\x00\x7f\x00\x07\x03\x01\x02\x01\x53\x01\xc3\
    \x5f\x25\x06\x02\x04\x00\x01\x00\x01\
    \x5f\x24\x06\x02\x07\x00\x01\x00\x01\
    \x5f\x37\x40\x00\x00\x00\x00\x00\x00\x00\x00\x00\x00\x00\x00\x00\x00\x00\x00\x00\x00\x00\x00\x00\x00\x00\
    \x00\x00\x00\x00\x00\x00\x00\x00\x00\x00\x00\x00\x00\x00\x00\x00\x00\x00\x00\x00\x00\x00\x00\x00\x00\x00\
    \x00\x00\x00\x00\x00\x00\x00\x00\x00\x00\x00\x00\x00\x00\x01";

const SETUP: &[u8] = b"cvca DECVCA ec 03 1096\n";

fn day(rt: &impl Abort, text: &[u8; 6]) -> Day {
    day_from_text(text).expect(rt, "the day exists")
}

fn reference(rt: &impl Abort, text: &[u8]) -> Reference {
    read_reference(text).expect(rt, "the reference is legal")
}

fn setup(rt: &impl Abort, alloc: Global) -> Setup {
    read_setup(alloc, SETUP).expect(rt, "the setup is legal")
}

fn no_rows(alloc: Global) -> MemoryKeeper {
    MemoryKeeper::new(alloc, KeeperPlan::new(alloc))
}

fn no_keys(alloc: Global) -> TableProvider {
    TableProvider::new(alloc, FailPlan::new(alloc))
}

fn make_key(rt: &impl Abort, alloc: Global, provider: &mut TableProvider) {
    let form = plain_form(alloc, FormName::Ec).expect(rt, "memory is there");
    drop(provider.new_key(alloc, &form).expect(rt, "no call fails"));
    drop(form);
}

fn found_on<B: Keeper>(
    rt: &impl Abort,
    alloc: Global,
    today: &[u8; 6],
    keeper: &mut B,
    provider: &mut TableProvider,
) -> Result<Founded, HolderFault> {
    let setup = setup(rt, alloc);
    assert!(rt; terms_of(&setup, 0).is_some());
    let answer = found(alloc, &setup, 0, day(rt, today), keeper, provider);
    drop(setup);
    answer
}

fn link_on<B: Keeper>(
    rt: &impl Abort,
    alloc: Global,
    today: &[u8; 6],
    keeper: &mut B,
    provider: &mut TableProvider,
) -> Result<Linked, HolderFault> {
    let setup = setup(rt, alloc);
    assert!(rt; terms_of(&setup, 0).is_some());
    let answer = new_link(alloc, &setup, 0, day(rt, today), keeper, provider);
    drop(setup);
    answer
}

fn has_bytes(row: Option<Row>, bytes: &[u8]) -> bool {
    let has_bytes = match &row {
        Some(row) => match &row.part {
            Part::Own(own) => match &own.settled {
                Some(settled) => settled.certificate.as_slice() == bytes,
                None => false,
            },
            _ => false,
        },
        None => false,
    };
    drop(row);
    has_bytes
}

#[test]
fn a_founding_has_the_bytes_of_the_worked_example(rt: HostRuntime) {
    let alloc = rt.alloc();
    let (mut keeper, mut provider) = (no_rows(alloc), no_keys(alloc));
    let first = reference(&rt, b"DECVCA00001");
    let answer = found_on(&rt, alloc, b"240101", &mut keeper, &mut provider);
    assert!(rt; answer == Ok(Founded::New(first)));
    let row = keeper
        .find(alloc, Table::Own, 0, &first)
        .expect(&rt, "no call fails");
    assert!(rt; has_bytes(row, FOUNDING.as_slice()));
    drop(keeper);
    drop(provider);
}

#[test]
fn each_refusal_of_a_founding_comes(rt: HostRuntime) {
    let alloc = rt.alloc();
    let (mut keeper, mut provider) = (no_rows(alloc), no_keys(alloc));
    let rows: [(&[u8; 6], Founded); 4] = [
        (b"990702", Founded::Short),
        (b"990701", Founded::New(reference(&rt, b"DECVCA00001"))),
        (b"990701", Founded::AlreadyFounded),
        (b"990702", Founded::AlreadyFounded),
    ];
    for (today, due) in rows {
        let answer = found_on(&rt, alloc, today, &mut keeper, &mut provider);
        assert!(rt; answer == Ok(due));
    }
    drop(keeper);
    drop(provider);
}

#[test]
fn each_refusal_of_a_link_comes(rt: HostRuntime) {
    let alloc = rt.alloc();
    let (mut keeper, mut provider) = (no_rows(alloc), no_keys(alloc));
    let early = link_on(&rt, alloc, b"240101", &mut keeper, &mut provider);
    assert!(rt; early == Ok(Linked::Unfounded));
    let first = found_on(&rt, alloc, b"240101", &mut keeper, &mut provider);
    assert!(rt; first == Ok(Founded::New(reference(&rt, b"DECVCA00001"))));
    let rows: [(&[u8; 6], Linked); 6] = [
        (b"231231", Linked::SameDay),
        (b"240101", Linked::SameDay),
        (b"240102", Linked::New(reference(&rt, b"DECVCA00002"))),
        (b"240102", Linked::SameDay),
        (b"990702", Linked::Short),
        (b"990701", Linked::New(reference(&rt, b"DECVCA00003"))),
    ];
    for (today, due) in rows {
        let answer = link_on(&rt, alloc, today, &mut keeper, &mut provider);
        assert!(rt; answer == Ok(due));
    }
    drop(keeper);
    drop(provider);
}

// A keeper's own rows of the authority until this one, and this one.
fn linked_until(
    rt: &impl Abort,
    alloc: Global,
    last: &Reference,
    provider: &mut TableProvider,
) -> Row
    ensures { IsStorable result }
{
    let mut keeper = no_rows(alloc);
    drop(found_on(rt, alloc, b"240101", &mut keeper, provider));
    drop(link_on(rt, alloc, b"240102", &mut keeper, provider));
    drop(link_on(rt, alloc, b"240103", &mut keeper, provider));
    let row = keeper
        .find(alloc, Table::Own, 0, last)
        .expect(rt, "no call fails")
        .expect(rt, "the row was added");
    drop(keeper);
    row
}

// Two own rows are kept, and the second has the number that comes next.
#[test]
fn a_link_whose_number_is_used_is_exhausted(rt: HostRuntime) {
    let alloc = rt.alloc();
    let (mut keeper, mut provider) = (no_rows(alloc), no_keys(alloc));
    let third = linked_until(&rt, alloc, &reference(&rt, b"DECVCA00003"), &mut provider);
    let first = found_on(&rt, alloc, b"240101", &mut keeper, &mut provider);
    assert!(rt; first.is_ok());
    keeper.add(alloc, &third).expect(&rt, "the row is new");
    drop(third);
    let answer = link_on(&rt, alloc, b"240104", &mut keeper, &mut provider);
    assert!(rt; answer == Ok(Linked::Exhausted));
    drop(keeper);
    drop(provider);
}

// The row came between the count and the adding.
#[test]
fn a_founding_that_came_between_is_answered(rt: HostRuntime) {
    let alloc = rt.alloc();
    let (mut rows, mut provider) = (no_rows(alloc), no_keys(alloc));
    let first = found_on(&rt, alloc, b"240101", &mut rows, &mut provider);
    assert!(rt; first.is_ok());
    let mut keeper = LateKeeper::new(rows);
    let again = found_on(&rt, alloc, b"240101", &mut keeper, &mut provider);
    assert!(rt; again == Ok(Founded::AlreadyFounded));
    drop(keeper);
    drop(provider);
}

// The key of the own row is the second that its provider made. Another provider makes its first one, and then misses
// it.
#[test]
fn a_link_under_a_key_that_is_not_held_names_its_row(rt: HostRuntime) {
    let alloc = rt.alloc();
    let (mut keeper, mut provider) = (no_rows(alloc), no_keys(alloc));
    make_key(&rt, alloc, &mut provider);
    let first = found_on(&rt, alloc, b"240101", &mut keeper, &mut provider);
    assert!(rt; first.is_ok());
    drop(provider);
    let mut other = no_keys(alloc);
    let answer = link_on(&rt, alloc, b"240102", &mut keeper, &mut other);
    assert!(rt; answer == Err(HolderFault::NoKey(reference(&rt, b"DECVCA00001"))));
    drop(keeper);
    drop(other);
}

// The adding is the second call of the keeper, the signing the second of the provider.
#[test]
fn a_failed_adding_may_have_founded(rt: HostRuntime) {
    let alloc = rt.alloc();
    for (moment, then) in [
        (Moment::Before, Founded::New(reference(&rt, b"DECVCA00001"))),
        (Moment::After, Founded::AlreadyFounded),
    ] {
        let mut plan = KeeperPlan::new(alloc);
        assert!(rt; plan.push((2, moment)).is_ok());
        let mut keeper = MemoryKeeper::new(alloc, plan);
        let mut provider = no_keys(alloc);
        let first = found_on(&rt, alloc, b"240101", &mut keeper, &mut provider);
        assert!(rt; first == Err(HolderFault::KeeperFault));
        let again = found_on(&rt, alloc, b"240101", &mut keeper, &mut provider);
        assert!(rt; again == Ok(then));
        drop(keeper);
        drop(provider);
    }
}

#[test]
fn a_failed_signing_leaves_no_row(rt: HostRuntime) {
    let alloc = rt.alloc();
    let mut plan = FailPlan::new(alloc);
    assert!(rt; plan.push(2).is_ok());
    let (mut keeper, mut provider) = (no_rows(alloc), TableProvider::new(alloc, plan));
    let first = found_on(&rt, alloc, b"240101", &mut keeper, &mut provider);
    assert!(rt; first == Err(HolderFault::ProviderFault));
    let count = keeper.count(alloc, Table::Own, 0).ok();
    assert!(rt; matches!(count, Some(0)));
    drop(keeper);
    drop(provider);
}
