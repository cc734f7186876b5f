// The texts of answers.
ghost use Rattle.std.specs.Prelude.{◌≡◌, ◌∷◌, ◌++◌, IfOk};
ghost use Rattle.std.specs.Fmt.{decimal};
ghost use Rattle.eac_net.specs.Journal as words;

mod delivered;
mod inspected;

use crate::answer::{Answer, Applied, Fault, Trusted};
use cvca_desk::{Founded, Linked};
use delivered::{called_text, replied_text};
use eac_base::{NoMemory, Octets};
use holder_reference::Reference;
use inspected::{imported_text, looked_text, made_text, presented_text};
use issue_core::RegisterAnswer;
use std::alloc::Global;

// A word, and what is named behind it.
pub(crate) fn named(alloc: Global, word: &[u8], name: &[u8]) -> Result<Octets, NoMemory>
    ensures { IfOk result (λ text. text ≡ word.now ++ name.now) }
{
    let mut text = Octets::from_slice(alloc, word)?;
    text.push_all(name)?;
    Ok(text)
}

pub(crate) fn numbered(alloc: Global, word: &[u8], number: u64) -> Result<Octets, NoMemory>
    ensures { IfOk result (λ text. text ≡ word.now ++ decimal number) }
{
    let digits = number.to_string(alloc)?;
    named(alloc, word, digits.as_bytes())
}

fn fault_text(alloc: Global, fault: &Fault) -> Result<Octets, NoMemory>
    ensures { IfOk result (λ text. text ≡ words.fault_text fault.now) }
{
    match fault {
        Fault::Keeper => Octets::from_slice(alloc, b"fault keeper"),
        Fault::Provider => Octets::from_slice(alloc, b"fault provider"),
        Fault::Disk => Octets::from_slice(alloc, b"fault disk"),
        Fault::Key(reference) => named(alloc, b"fault key ", reference.as_slice()),
    }
}

// The word, the reference and the day on which it was given.
fn given_text(
    alloc: Global,
    word: &[u8],
    reference: &Reference,
    day: &[u8; 6],
) -> Result<Octets, NoMemory>
    ensures { IfOk result (λ text. text ≡ word.now ++ reference.now ++ 32 ∷ day.now) }
{
    let mut text = named(alloc, word, reference.as_slice())?;
    text.push_all(b" ")?;
    text.push_all(day)?;
    Ok(text)
}

fn register_text(
    alloc: Global,
    reference: &Reference,
    answer: &RegisterAnswer,
) -> Result<Octets, NoMemory>
    ensures { IfOk result (λ text. text ≡ words.register_text reference.now answer.now) }
{
    match answer {
        RegisterAnswer::Issued(day) => given_text(alloc, b"issued ", reference, day),
        RegisterAnswer::Kept(day) => given_text(alloc, b"kept ", reference, day),
        RegisterAnswer::Refused(rule) => numbered(alloc, b"refused ", rule.number() as u64),
    }
}

fn found_text(alloc: Global, founded: &Founded) -> Result<Octets, NoMemory>
    ensures { IfOk result (λ text. text ≡ words.found_text founded.now) }
{
    match founded {
        Founded::New(reference) => named(alloc, b"founded ", reference.as_slice()),
        Founded::AlreadyFounded => Octets::from_slice(alloc, b"refused founded"),
        Founded::Short => Octets::from_slice(alloc, b"refused short"),
    }
}

fn link_text(alloc: Global, linked: &Linked) -> Result<Octets, NoMemory>
    ensures { IfOk result (λ text. text ≡ words.link_text linked.now) }
{
    match linked {
        Linked::New(reference) => named(alloc, b"linked ", reference.as_slice()),
        Linked::Unfounded => Octets::from_slice(alloc, b"refused unfounded"),
        Linked::Exhausted => Octets::from_slice(alloc, b"refused exhausted"),
        Linked::SameDay => Octets::from_slice(alloc, b"refused sameday"),
        Linked::Short => Octets::from_slice(alloc, b"refused short"),
    }
}

fn trust_text(alloc: Global, trusted: &Trusted) -> Result<Octets, NoMemory>
    ensures { IfOk result (λ text. text ≡ words.trust_text trusted.now) }
{
    match trusted {
        Trusted::Stored(reference) => named(alloc, b"trusted ", reference.as_slice()),
        Trusted::Held(reference) => named(alloc, b"held ", reference.as_slice()),
        Trusted::Unfounded => Octets::from_slice(alloc, b"refused unfounded"),
        Trusted::Full => Octets::from_slice(alloc, b"refused full"),
    }
}

fn packet_text(alloc: Global, packet: u64) -> Result<Octets, NoMemory>
    ensures { IfOk result (λ text. text ≡ words.packet_text packet) }
{
    numbered(alloc, b"packet ", packet)
}

// The packet, and the reference of the request that it has.
fn request_text(alloc: Global, packet: u64, reference: &Reference) -> Result<Octets, NoMemory>
    ensures { IfOk result (λ text. text ≡ words.packet_text packet ++ 32 ∷ reference.now) }
{
    let mut text = packet_text(alloc, packet)?;
    text.push_all(b" ")?;
    text.push_all(reference.as_slice())?;
    Ok(text)
}

fn apply_text(alloc: Global, applied: &Applied) -> Result<Octets, NoMemory>
    ensures { IfOk result (λ text. text ≡ words.apply_text applied.now) }
{
    match applied {
        Applied::Sent { packet, reference } => request_text(alloc, *packet, reference),
        Applied::Exhausted => Octets::from_slice(alloc, b"refused exhausted"),
        Applied::NoAuthority => Octets::from_slice(alloc, b"refused noauthority"),
    }
}

/// The text by which a journal tells the answer.
pub fn answer_text(alloc: Global, answer: &Answer) -> Result<Octets, NoMemory>
    ensures { IfOk result (λ text. text ≡ words.answer_text answer.now) }
{
    match answer {
        Answer::Silent => Ok(Octets::new(alloc)),
        Answer::Registered { reference, answer } => register_text(alloc, reference, answer),
        Answer::Founded(founded) => found_text(alloc, founded),
        Answer::Linked(linked) => link_text(alloc, linked),
        Answer::Trusted(trusted) => trust_text(alloc, trusted),
        Answer::Applied(applied) => apply_text(alloc, applied),
        Answer::Sent { packet } => packet_text(alloc, *packet),
        Answer::Failed(fault) => fault_text(alloc, fault),
        Answer::Called { event, reply } => called_text(alloc, event, *reply),
        Answer::Replied(replied) => replied_text(alloc, replied),
        Answer::Unsent => Octets::from_slice(alloc, b"unsent"),
        Answer::Made(made) => made_text(alloc, made),
        Answer::Presented(presented) => presented_text(alloc, presented),
        Answer::Imported(imported) => imported_text(alloc, imported),
        Answer::Looked(looked) => looked_text(alloc, looked),
    }
}
