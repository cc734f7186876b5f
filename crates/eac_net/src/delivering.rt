// A packet comes to its party.
ghost use Rattle.std.specs.Prelude.{◌≡◌, [], List, ℕ, Ok, Some, IsErr, IsSome};
ghost use Rattle.std.specs.Option.{option_copied};
ghost use Rattle.desk_core.specs.Serving.{moment};
ghost use Rattle.eac_messages.specs.Message.{read_message as message_in};
ghost use Rattle.eac_messages.specs.Reply.{read_reply as reply_in};
ghost use Rattle.eac_messages.specs.declared.refusal.MessageRefusal.TheVariants as refusals;
ghost use Rattle.policy_limits.specs.Setup.{SetupValue};
ghost use Rattle.eac_net.specs.Answers.{Tells};
ghost use Rattle.eac_net.specs.Arrival.{arrival, call_read, reply_read};
ghost use Rattle.eac_net.specs.Delivered.{took_answer};
ghost use Rattle.eac_net.specs.Delivering.{DeliverFits};
ghost use Rattle.chip_events.specs.DiskTurns.{DiskKnown};
ghost use Rattle.eac_net.specs.Objects.{outside};
ghost use Rattle.eac_net.specs.Packets as numbers;
ghost use Rattle.eac_net.specs.Packets.{AreBetween};
ghost use Rattle.eac_net.specs.Parties.{kind_at};
ghost use Rattle.eac_net.specs.Serving.{CameOrNot, Came, ServesBack};
ghost use Rattle.eac_net.specs.Steps.{HasStepped};
ghost use Rattle.eac_net.specs.declared.answer.Answer.TheVariants as answers;
ghost use Rattle.eac_net.specs.declared.answer.Replied.TheVariants as replies;
ghost use Rattle.eac_net.specs.declared.packet.Packet.{Packet as PacketValue};

mod serving;

use crate::answer::{Answer, Happened, Replied};
use crate::concluding::{conclude, told};
use crate::event::Event;
use crate::packet::{Packet, PacketList};
use crate::world::World;
use cv_dates::Day;
use eac_base::{NoMemory, Octets};
use eac_messages::{MessageRefusal, Reply, read_message, read_reply};
use holder_core::{CertList, HolderFault, Received, receive};
use keeper::Keeper;
use policy_limits::Setup;
use serving::{serve, unread};
use signature_provider::SignatureProvider;
use std::alloc::Global;

// ---- replies

// What came of certificates. Want of memory has no answer.
fn took(received: Received) -> Result<Happened, NoMemory>
    ensures { Tells result (took_answer received.fault received) [] }
{
    match received.fault {
        None => Ok(told(Answer::Replied(Replied::Took(received)))),
        Some(HolderFault::NoMemory) => {
            drop(received);
            Err(NoMemory)
        }
        Some(HolderFault::KeeperFault | HolderFault::ProviderFault | HolderFault::NoKey(_)) => {
            Ok(told(Answer::Replied(Replied::Took(received))))
        }
    }
}

// The party takes the certificates of a reply.
fn take_back<B: Keeper, P: SignatureProvider>(
    alloc: Global,
    party: u32,
    certificates: &CertList,
    keeper: &mut B,
    provider: &mut P,
) -> Result<Happened, NoMemory>
    ensures { ServesBack (moment B.Keeper P.SignatureProvider keeper.old provider.old)
        (moment B.Keeper P.SignatureProvider keeper.new provider.new) result party certificates.now }
{
    took(receive(alloc, party, certificates, keeper, provider))
}

// The party takes the reply, and notes the code where it brings no certificates.
fn take_reply<B: Keeper, P: SignatureProvider>(
    alloc: Global,
    packet: &Packet,
    reply: &Reply,
    keeper: &mut B,
    provider: &mut P,
) -> Result<Happened, NoMemory>
    ensures { (setup : SetupValue) (day : ℕ) (packets : List PacketValue) (body : List ℕ)
        → reply_in body ≡ Ok reply.now
        → Came (moment B.Keeper P.SignatureProvider keeper.old provider.old)
        (moment B.Keeper P.SignatureProvider keeper.new provider.new) result setup day packets (Some packet.now)
        (reply_read (reply_in body)) }
{
    if reply.code.carries_certificates() {
        take_back(alloc, packet.to, &reply.certificates, keeper, provider)
    } else {
        Ok(told(Answer::Replied(Replied::Noted(reply.code))))
    }
}

// A body that is no reply. Where memory was wanting for the reading nothing is said of it.
fn malformed(refusal: MessageRefusal) -> Result<Happened, NoMemory>
    ensures told { Tells result (Some (answers.Replied replies.Malformed)) [] }
    ensures unheard { refusal ≡ refusals.NoMemory → IsErr result }
{
    match refusal {
        MessageRefusal::NoMemory => Err(NoMemory),
        MessageRefusal::NotJson | MessageRefusal::Member(_) | MessageRefusal::Base64(_) => {
            Ok(told(Answer::Replied(Replied::Malformed)))
        }
    }
}

// A reply came.
fn reply_came<B: Keeper, P: SignatureProvider>(
    alloc: Global,
    packet: &Packet,
    keeper: &mut B,
    provider: &mut P,
) -> Result<Happened, NoMemory>
    ensures { (setup : SetupValue) (day : ℕ) (packets : List PacketValue)
        → CameOrNot (moment B.Keeper P.SignatureProvider keeper.old provider.old)
        (moment B.Keeper P.SignatureProvider keeper.new provider.new) result setup day packets (Some packet.now)
        (reply_read (reply_in packet.now.body)) }
{
    match read_reply(alloc, packet.body.as_slice()) {
        Ok(reply) => {
            let happened = take_reply(alloc, packet, &reply, keeper, provider);
            drop(reply);
            happened
        }
        Err(refusal) => malformed(refusal),
    }
}

// ---- calls

// A call came.
fn call_came<B: Keeper, P: SignatureProvider>(
    alloc: Global,
    setup: &Setup,
    day: Day,
    packets: &PacketList,
    packet: &Packet,
    keeper: &mut B,
    provider: &mut P,
) -> Result<Happened, NoMemory>
    ensures { CameOrNot (moment B.Keeper P.SignatureProvider keeper.old provider.old)
        (moment B.Keeper P.SignatureProvider keeper.new provider.new) result setup.now day packets.now
        (Some packet.now) (call_read (kind_at setup.now packet.now.to) (message_in packet.now.body)) }
{
    match read_message(alloc, packet.body.as_slice()) {
        Ok(message) => {
            let happened = serve(
                alloc, setup, day, packets, packet, &message, keeper, provider,
            );
            drop(message);
            happened
        }
        Err(refusal) => unread(alloc, packets, packet, refusal),
    }
}

// ---- packets

// The packet of this number, from 1.
fn packet_at(packets: &PacketList, number: u64) -> Option<&Packet>
    requires { DeliverFits number }
    ensures { option_copied result ≡ numbers.packet_at packets.now number }
{
    packets.get((number - 1) as usize)
}

fn came<B: Keeper, P: SignatureProvider>(
    alloc: Global,
    setup: &Setup,
    day: Day,
    packets: &PacketList,
    number: u64,
    keeper: &mut B,
    provider: &mut P,
) -> Result<Happened, NoMemory>
    requires { DeliverFits number }
    ensures { CameOrNot (moment B.Keeper P.SignatureProvider keeper.old provider.old)
        (moment B.Keeper P.SignatureProvider keeper.new provider.new) result setup.now day packets.now
        (numbers.packet_at packets.now number) (arrival setup.now (numbers.packet_at packets.now number)) }
{
    let Some(packet) = packet_at(packets, number) else {
        return Ok(told(Answer::Unsent));
    };
    if packet.reply {
        reply_came(alloc, packet, keeper, provider)
    } else {
        call_came(alloc, setup, day, packets, packet, keeper, provider)
    }
}

/// The packet of this number, from 1, comes to its party: a call is served and replied to, the certificates of a reply
/// are taken.
pub fn deliver<B: Keeper, P: SignatureProvider>(
    alloc: Global,
    setup: &Setup,
    world: &mut World,
    number: u64,
    keeper: &mut B,
    provider: &mut P,
    line: &mut Octets,
) -> Result<(), NoMemory>
    requires day { IsSome world.old.day }
    requires number { DeliverFits number }
    requires parties { AreBetween setup.now world.old.packets }
    ensures steps { (disks : ℕ → DiskKnown) → HasStepped setup.now (Event.Deliver number) result (world.old, line.old) (world.new, line.new)
        (outside B.Keeper P.SignatureProvider disks keeper.old provider.old)
        (outside B.Keeper P.SignatureProvider disks keeper.new provider.new) }
    ensures day { world.new.day ≡ world.old.day }
{
    let day = world.day.unwrap();
    let happened = came(alloc, setup, day, &world.packets, number, keeper, provider);
    conclude(alloc, world, happened, line)
}
