// The texts of what came of packets.
ghost use Rattle.std.specs.Prelude.{◌≡◌, ◌∷◌, ◌++◌, [], map, IfOk, OnOk};
ghost use Rattle.eac_net.specs.Delivered as words;

use crate::answer::Replied;
use crate::texts::{named, numbered};
use desk_core::Event1;
use eac_base::{NoMemory, Octets};
use holder_core::{HolderFault, Item, ItemList, Received, Taken, TakenCa};
use std::alloc::Global;

fn fault_words(alloc: Global, fault: &HolderFault) -> Result<Octets, NoMemory>
    ensures { IfOk result (λ text. text ≡ words.fault_words fault.now) }
{
    match fault {
        HolderFault::KeeperFault => Octets::from_slice(alloc, b"fault keeper"),
        HolderFault::ProviderFault => Octets::from_slice(alloc, b"fault provider"),
        HolderFault::NoKey(reference) => named(alloc, b"fault key ", reference.as_slice()),
        HolderFault::NoMemory => Ok(Octets::new(alloc)),
    }
}

fn own_text(alloc: Global, taken: &Taken) -> Result<Octets, NoMemory>
    ensures { IfOk result (λ text. text ≡ words.own_text taken.now) }
{
    match taken {
        Taken::Stored(reference) => named(alloc, b"stored ", reference.as_slice()),
        Taken::Already(reference) => named(alloc, b"already ", reference.as_slice()),
        Taken::Refused(rule) => numbered(alloc, b"refused own ", rule.number() as u64),
    }
}

fn ca_text(alloc: Global, taken: &TakenCa) -> Result<Octets, NoMemory>
    ensures { IfOk result (λ text. text ≡ words.ca_text taken.now) }
{
    match taken {
        TakenCa::Stored(reference) => named(alloc, b"ca ", reference.as_slice()),
        TakenCa::Held(reference) => named(alloc, b"ca held ", reference.as_slice()),
        TakenCa::Refused(rule) => numbered(alloc, b"refused ca ", rule.number() as u64),
    }
}

fn item_text(alloc: Global, item: &Item) -> Result<Octets, NoMemory>
    ensures { IfOk result (λ text. text ≡ words.item_text item.now) }
{
    match item {
        Item::Own(taken) => own_text(alloc, taken),
        Item::Ca(taken) => ca_text(alloc, taken),
    }
}

/// Appends the text at this place of a list: behind a comma, where it isn't the first.
pub(crate) fn push_at(text: &mut Octets, at: usize, more: &[u8]) -> Result<(), NoMemory>
    ensures { OnOk result (text.new ≡ text.old ++ words.behind at more.now) }
{
    if 0 < at {
        text.push_all(b", ")?;
    }
    text.push_all(more)
}

// The texts of items, one behind the other.
fn items_text(alloc: Global, items: &ItemList) -> Result<Octets, NoMemory>
    ensures { IfOk result (λ text. text ≡ words.listed 0 (map words.item_text items.now)) }
{
    let mut text = Octets::new(alloc);
    for at in 0..items.len() {
        let Some(item) = items.get(at) else {
            unreachable!();
        };
        let more = item_text(alloc, item)?;
        push_at(&mut text, at, more.as_slice())?;
    }
    Ok(text)
}

// All of them came, each with its item.
fn whole_text(alloc: Global, items: &ItemList) -> Result<Octets, NoMemory>
    ensures { IfOk result (λ text. text ≡ words.joined (map words.item_text items.now)) }
{
    if items.len() == 0 {
        Octets::from_slice(alloc, b"nothing")
    } else {
        items_text(alloc, items)
    }
}

// A fault stands behind the items before it.
fn broken_text(alloc: Global, items: &ItemList, fault: &HolderFault) -> Result<Octets, NoMemory>
    ensures { IfOk result (λ text. text
        ≡ words.joined (map words.item_text items.now ++ words.fault_words fault.now ∷ [])) }
{
    let mut text = items_text(alloc, items)?;
    let more = fault_words(alloc, fault)?;
    push_at(&mut text, items.len(), more.as_slice())?;
    Ok(text)
}

fn received_text(alloc: Global, received: &Received) -> Result<Octets, NoMemory>
    ensures { IfOk result (λ text. text ≡ words.received_text received.now) }
{
    match &received.fault {
        None => whole_text(alloc, &received.items),
        Some(fault) => broken_text(alloc, &received.items, fault),
    }
}

fn event_text(alloc: Global, event: &Event1) -> Result<Octets, NoMemory>
    ensures { IfOk result (λ text. text ≡ words.event_text event.now) }
{
    match event {
        Event1::Issued(reference) => named(alloc, b"issued ", reference.as_slice()),
        Event1::Kept(reference) => named(alloc, b"kept ", reference.as_slice()),
        Event1::Refused(rule) => numbered(alloc, b"refused ", *rule as u64),
        Event1::Listed(count) => numbered(alloc, b"list ", *count),
        Event1::Received(received) => received_text(alloc, received),
        Event1::NotServed => Octets::from_slice(alloc, b"not served"),
        Event1::Fault(fault) => fault_words(alloc, fault),
    }
}

fn call_words(alloc: Global, event: &Option<Event1>) -> Result<Octets, NoMemory>
    ensures { IfOk result (λ text. text ≡ words.call_words event.now) }
{
    match event {
        Some(event) => event_text(alloc, event),
        None => Octets::from_slice(alloc, b"malformed"),
    }
}

/// What came of a call, with the number of its reply.
pub(crate) fn called_text(
    alloc: Global,
    event: &Option<Event1>,
    reply: u64,
) -> Result<Octets, NoMemory>
    ensures { IfOk result (λ text. text ≡ words.called_text event.now reply) }
{
    let mut text = call_words(alloc, event)?;
    let number = numbered(alloc, b" reply ", reply)?;
    text.push_all(number.as_slice())?;
    Ok(text)
}

/// What came of a reply.
pub(crate) fn replied_text(alloc: Global, replied: &Replied) -> Result<Octets, NoMemory>
    ensures { IfOk result (λ text. text ≡ words.replied_text replied.now) }
{
    match replied {
        Replied::Malformed => Octets::from_slice(alloc, b"malformed"),
        Replied::Noted(code) => named(alloc, b"noted ", code.as_str().as_bytes()),
        Replied::Took(received) => received_text(alloc, received),
    }
}
