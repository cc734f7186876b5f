// Packets that parties send by themselves.
ghost use Rattle.std.specs.Prelude.{◌≡◌, [], ◌∷◌, Some, IfOk};
ghost use Rattle.eac_messages.specs.Message.{message_text};
ghost use Rattle.eac_messages.specs.declared.message.Message.TheVariants as messages;
ghost use Rattle.policy_limits.specs.Setup.{SetupValue};
ghost use Rattle.eac_net.specs.Answers.{Tells};
ghost use Rattle.eac_net.specs.Objects.{Outside};
ghost use Rattle.eac_net.specs.Packets as numbers;
ghost use Rattle.eac_net.specs.Packets.{AreBetween, packet_of};
ghost use Rattle.eac_net.specs.Sending.{FetchFits, SendFits, question};
ghost use Rattle.eac_net.specs.Steps.{HasStepped};
ghost use Rattle.eac_net.specs.declared.answer.Answer.TheVariants as answers;

use crate::answer::{Answer, Happened};
use crate::concluding::{conclude, next_number};
use crate::event::Event;
use crate::packet::{Packet, PacketList};
use crate::world::World;
use eac_base::{NoMemory, Octets};
use eac_messages::{Message, write_message};
use std::alloc::Global;

/// A call with these bytes, and the number of its packet.
pub fn posted(packets: &PacketList, from: u32, to: u32, body: Octets) -> Result<Happened, NoMemory>
    ensures { Tells result (Some (answers.Sent (numbers.next_number packets.now))) (packet_of from to body ∷ []) }
{
    let packet = next_number(packets)?;
    Ok(Happened {
        answer: Answer::Sent { packet },
        sent: Some(Packet {
            from,
            to,
            reply: false,
            body,
        }),
    })
}

// The body of a question for a list.
fn question_body(alloc: Global) -> Result<Octets, NoMemory>
    ensures { IfOk result (λ body. body ≡ message_text (messages.GetCaCertificates [])) }
{
    let message = Message::GetCaCertificates {
        id: Octets::new(alloc),
    };
    let body = write_message(alloc, &message);
    drop(message);
    body
}

fn asked(alloc: Global, packets: &PacketList, party: u32, desk: u32) -> Result<Happened, NoMemory>
    ensures { Tells result (Some (answers.Sent (numbers.next_number packets.now))) (question party desk ∷ []) }
{
    let body = question_body(alloc)?;
    posted(packets, party, desk, body)
}

fn copied(
    alloc: Global,
    packets: &PacketList,
    from: u32,
    to: u32,
    bytes: &[u8],
) -> Result<Happened, NoMemory>
    ensures { Tells result (Some (answers.Sent (numbers.next_number packets.now))) (packet_of from to bytes.now ∷ []) }
{
    let body = Octets::from_slice(alloc, bytes)?;
    posted(packets, from, to, body)
}

/// Sends the question for a desk's list.
pub fn fetch(
    alloc: Global,
    world: &mut World,
    party: u32,
    desk: u32,
    line: &mut Octets,
) -> Result<(), NoMemory>
    ensures steps { (setup : SetupValue) (o : Outside) → FetchFits setup party desk → AreBetween setup world.old.packets
        → HasStepped setup (Event.Fetch party desk) result (world.old, line.old) (world.new, line.new) o o }
    ensures day { world.new.day ≡ world.old.day }
{
    let happened = asked(alloc, &world.packets, party, desk);
    conclude(alloc, world, happened, line)
}

/// Sends these bytes as a call.
pub fn send(
    alloc: Global,
    world: &mut World,
    from: u32,
    to: u32,
    bytes: &[u8],
    line: &mut Octets,
) -> Result<(), NoMemory>
    ensures steps { (setup : SetupValue) (o : Outside) → SendFits setup from to bytes.now
        → AreBetween setup world.old.packets → HasStepped setup (Event.Send from to bytes.now) result (world.old, line.old) (world.new, line.new) o o }
    ensures day { world.new.day ≡ world.old.day }
{
    let happened = copied(alloc, &world.packets, from, to, bytes);
    conclude(alloc, world, happened, line)
}
