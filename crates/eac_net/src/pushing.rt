// A desk sends its list by itself.
ghost use Rattle.std.specs.Prelude.{◌≡◌, [], ℕ, List, IfOk};
ghost use Rattle.eac_messages.specs.Message.{message_text};
ghost use Rattle.eac_messages.specs.declared.message.Message.TheVariants as messages;
ghost use Rattle.eac_net.specs.Answers.{Tells, answer_by};
ghost use Rattle.eac_net.specs.Objects.{Outside, kept_by};
ghost use Rattle.eac_net.specs.Packets as numbers;
ghost use Rattle.eac_net.specs.Packets.{AreBetween};
ghost use Rattle.eac_net.specs.Pushing.{PushFits, list_sent};
ghost use Rattle.eac_net.specs.Steps.{HasStepped};
ghost use Rattle.eac_net.specs.declared.answer.Answer.TheVariants as answers;

use crate::answer::Happened;
use crate::concluding::{conclude, failed};
use crate::event::Event;
use crate::lists::desk_list;
use crate::packet::PacketList;
use crate::sending::posted;
use crate::world::World;
use eac_base::{NoMemory, Octets};
use eac_messages::{Message, write_message};
use holder_core::{CertList, HolderFault};
use keeper::Keeper;
use policy_limits::Setup;
use std::alloc::Global;

// The body of the call that has a list.
fn list_body(alloc: Global, list: CertList) -> Result<Octets, NoMemory>
    ensures { IfOk result (λ body. body ≡ message_text (messages.SendCertificates [] list)) }
{
    let message = Message::SendCertificates {
        id: Octets::new(alloc),
        certificates: list,
    };
    let body = write_message(alloc, &message);
    drop(message);
    body
}

fn pushed(
    alloc: Global,
    packets: &PacketList,
    desk: u32,
    party: u32,
    list: Result<CertList, HolderFault>,
) -> Result<Happened, NoMemory>
    ensures { Tells result (answer_by (λ (list : List (List ℕ)). answers.Sent (numbers.next_number packets.now)) list)
        (list_sent desk party list) }
{
    match list {
        Ok(list) => {
            let body = list_body(alloc, list)?;
            posted(packets, desk, party, body)
        }
        Err(fault) => failed(fault),
    }
}

/// The desk sends its list to the party.
pub fn push<B: Keeper>(
    alloc: Global,
    setup: &Setup,
    world: &mut World,
    desk: u32,
    party: u32,
    keeper: &mut B,
    line: &mut Octets,
) -> Result<(), NoMemory>
    requires fits { PushFits setup.now desk party }
    requires parties { AreBetween setup.now world.old.packets }
    ensures steps { (o : Outside) → HasStepped setup.now (Event.Push desk party) result (world.old, line.old)
        (world.new, line.new) (kept_by B.Keeper keeper.old o) (kept_by B.Keeper keeper.new o) }
    ensures day { world.new.day ≡ world.old.day }
{
    let list = desk_list(alloc, setup, desk, keeper);
    let happened = pushed(alloc, &world.packets, desk, party, list);
    conclude(alloc, world, happened, line)
}
