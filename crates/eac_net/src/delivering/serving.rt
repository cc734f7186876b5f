// A call comes to its party, and is replied to.
ghost use Rattle.std.specs.Prelude.{◌≡◌, [], ◌∷◌, None, Some, IfOk, IsErr};
ghost use Rattle.desk_core.specs.Serving.{moment};
ghost use Rattle.eac_messages.specs.Message.{CanBeCalled};
ghost use Rattle.eac_messages.specs.Reply.{CanBeReplied};
ghost use Rattle.eac_messages.specs.declared.refusal.MessageRefusal.TheVariants as refusals;
ghost use Rattle.eac_net.specs.Answers.{Tells};
ghost use Rattle.eac_net.specs.Arrival.{call_at};
ghost use Rattle.eac_net.specs.Delivered.{unread_reply as due_unread};
ghost use Rattle.eac_net.specs.Packets.{next_number as due_number, reply_to};
ghost use Rattle.eac_net.specs.Parties.{kind_at};
ghost use Rattle.eac_net.specs.Serving.{AnswersCall, Came};
ghost use Rattle.eac_net.specs.declared.answer.Answer.TheVariants as answers;

use crate::answer::{Answer, Happened};
use crate::concluding::next_number;
use crate::packet::{Packet, PacketList};
use cv_dates::Day;
use desk_core::{Event1, Served, decline};
use eac_base::{ByteLists, NoMemory, Octets};
use eac_messages::{Code, Message, MessageRefusal, Reply, write_reply};
use keeper::Keeper;
use policy_limits::{PartyKind, Setup};
use signature_provider::SignatureProvider;
use std::alloc::Global;

// The reply goes back to the sender of the call.
fn reply_packet(alloc: Global, call: &Packet, reply: &Reply) -> Result<Packet, NoMemory>
    requires { CanBeReplied reply.now }
    ensures { IfOk result (λ packet. packet ≡ reply_to call.now reply.now) }
{
    let body = write_reply(alloc, reply)?;
    Ok(Packet {
        from: call.to,
        to: call.from,
        reply: true,
        body,
    })
}

// What is told of a call with this reply.
fn called(
    alloc: Global,
    packets: &PacketList,
    call: &Packet,
    event: Option<Event1>,
    reply: &Reply,
) -> Result<Happened, NoMemory>
    requires { CanBeReplied reply.now }
    ensures { Tells result (Some (answers.Called event (due_number packets.now))) (reply_to call.now reply.now ∷ []) }
{
    let number = next_number(packets)?;
    let sent = reply_packet(alloc, call, reply)?;
    Ok(Happened {
        answer: Answer::Called {
            event,
            reply: number,
        },
        sent: Some(sent),
    })
}

fn unread_reply(alloc: Global) -> Reply
    ensures due { result ≡ due_unread }
    ensures writable { CanBeReplied result }
{
    Reply {
        id: Octets::new(alloc),
        code: Code::Syntax,
        rule: None,
        certificates: ByteLists::new(alloc),
    }
}

/// A call that is no message. Where memory was wanting for the reading nothing is said of it.
pub(crate) fn unread(
    alloc: Global,
    packets: &PacketList,
    call: &Packet,
    refusal: MessageRefusal,
) -> Result<Happened, NoMemory>
    ensures told { Tells result (Some (answers.Called None (due_number packets.now)))
        (reply_to call.now due_unread ∷ []) }
    ensures unheard { refusal ≡ refusals.NoMemory → IsErr result }
{
    match refusal {
        MessageRefusal::NoMemory => Err(NoMemory),
        MessageRefusal::NotJson | MessageRefusal::Member(_) | MessageRefusal::Base64(_) => {
            let reply = unread_reply(alloc);
            let happened = called(alloc, packets, call, None, &reply);
            drop(reply);
            happened
        }
    }
}

// The party answers as one of its kind does.
fn answer_call<B: Keeper, P: SignatureProvider>(
    alloc: Global,
    setup: &Setup,
    day: Day,
    party: u32,
    message: &Message,
    keeper: &mut B,
    provider: &mut P,
) -> Result<Served, NoMemory>
    requires { CanBeCalled message.now }
    ensures answered { AnswersCall setup.now party day (call_at (kind_at setup.now party) message.now)
        (moment B.Keeper P.SignatureProvider keeper.old provider.old)
        (moment B.Keeper P.SignatureProvider keeper.new provider.new) result }
    ensures writable { IfOk result (λ served. CanBeReplied served.reply) }
{
    let Some(found) = setup.party(party) else {
        return decline(alloc, message.id());
    };
    match found.kind {
        PartyKind::Cvca { .. } => {
            cvca_desk::answer(alloc, setup, party, day, message, keeper, provider)
        }
        PartyKind::Dv => dv_desk::answer(alloc, setup, party, day, message, keeper, provider),
        PartyKind::Terminal => {
            terminal_desk::answer(alloc, setup, party, day, message, keeper, provider)
        }
    }
}

/// A call that is this message: its party answers it, and the reply is sent back.
pub(crate) fn serve<B: Keeper, P: SignatureProvider>(
    alloc: Global,
    setup: &Setup,
    day: Day,
    packets: &PacketList,
    call: &Packet,
    message: &Message,
    keeper: &mut B,
    provider: &mut P,
) -> Result<Happened, NoMemory>
    requires { CanBeCalled message.now }
    ensures { Came (moment B.Keeper P.SignatureProvider keeper.old provider.old)
        (moment B.Keeper P.SignatureProvider keeper.new provider.new) result setup.now day packets.now
        (Some call.now) (call_at (kind_at setup.now call.now.to) message.now) }
{
    let Served { reply, event } = answer_call(
        alloc, setup, day, call.to, message, keeper, provider,
    )?;
    let happened = called(alloc, packets, call, Some(event), &reply);
    drop(reply);
    happened
}
