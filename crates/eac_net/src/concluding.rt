// How an event ends: its packet is sent and its answer told, or neither.
ghost use Rattle.std.specs.Prelude.{◌≡◌, ◌∷◌, ◌++◌, [], None, IfOk, OnOk, OnErr};
ghost use Rattle.eac_net.specs.Answers.{Tells, fault_answer, Concludes};
ghost use Rattle.eac_net.specs.Packets.{next_number};

use crate::answer::{Answer, Fault, Happened};
use crate::packet::{Packet, PacketList};
use crate::texts::answer_text;
use crate::world::World;
use eac_base::{NoMemory, Octets};
use holder_core::HolderFault;
use std::alloc::Global;

/// An answer with which no packet is sent.
pub fn told(answer: Answer) -> Happened
    ensures answer { result.answer ≡ answer }
    ensures sent { result.sent ≡ None }
{
    Happened { answer, sent: None }
}

/// A party's call that was broken off.
pub fn failed(fault: HolderFault) -> Result<Happened, NoMemory>
    ensures { Tells result (fault_answer fault) [] }
{
    match fault {
        HolderFault::KeeperFault => Ok(told(Answer::Failed(Fault::Keeper))),
        HolderFault::ProviderFault => Ok(told(Answer::Failed(Fault::Provider))),
        HolderFault::NoKey(reference) => Ok(told(Answer::Failed(Fault::Key(reference)))),
        HolderFault::NoMemory => Err(NoMemory),
    }
}

/// The number of the packet that is sent next.
pub fn next_number(packets: &PacketList) -> Result<u64, NoMemory>
    ensures { IfOk result (λ n. n ≡ next_number packets.now) }
{
    match (packets.len() as u64).checked_add(1) {
        Some(number) => Ok(number),
        None => Err(NoMemory),
    }
}

// Sends the packet and appends the text, or does neither.
fn send(world: &mut World, packet: Packet, text: &[u8], line: &mut Octets) -> Result<(), NoMemory>
    ensures day { world.new.day ≡ world.old.day }
    ensures imports { world.new.imports ≡ world.old.imports }
    ensures acks { world.new.acks ≡ world.old.acks }
    ensures sent { OnOk result ((world.new.packets ≡ world.old.packets ++ packet ∷ [])
        × (line.new ≡ line.old ++ text.now)) }
    ensures kept { OnErr result ((world.new.packets ≡ world.old.packets) × (line.new ≡ line.old)) }
{
    world.packets.push(packet)?;
    match line.push_all(text) {
        Ok(()) => Ok(()),
        Err(NoMemory) => {
            world.packets.take_back();
            Err(NoMemory)
        }
    }
}

/// Sends the packet of what happened and appends the text of its answer; in want of memory, then or before, neither.
pub fn conclude(
    alloc: Global,
    world: &mut World,
    happened: Result<Happened, NoMemory>,
    line: &mut Octets,
) -> Result<(), NoMemory>
    ensures { Concludes happened result world.old world.new line.old line.new }
{
    let Happened { answer, sent } = happened?;
    let text = answer_text(alloc, &answer)?;
    drop(answer);
    match sent {
        None => line.push_all(text.as_slice()),
        Some(packet) => send(world, packet, text.as_slice(), line),
    }
}
