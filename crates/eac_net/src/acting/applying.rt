// A holder makes a request and sends it.
ghost use Rattle.std.specs.Prelude.{◌≡◌, [], ◌∷◌, Option, Some, Ok, IfOk, IfSome, IsSome, IsTrue, is_some, ℕ};
ghost use Rattle.eac_base.specs.Telling.{Told};
ghost use Rattle.eac_messages.specs.declared.message.Message.TheVariants as messages;
ghost use Rattle.holder_core.specs.Faults.{HolderCause, KeeperCaused};
ghost use Rattle.holder_core.specs.Requesting.{Requests, RequestAsked, home_signer};
ghost use Rattle.holder_core.specs.Signers.{Signer, own_signer};
ghost use Rattle.holder_core.specs.Signing.{SignsNoBody};
ghost use Rattle.holder_core.specs.Signing as signing;
ghost use Rattle.policy_limits.specs.Setup.{IsSetup};
ghost use Rattle.eac_net.specs.Acting as words;
ghost use Rattle.eac_net.specs.Acting.{ApplyFits, home_of, HomeAsked, HomeFound, MissesApplying, applied_as, request_sent};
ghost use Rattle.eac_net.specs.Answers.{Tells, answer_by};
ghost use Rattle.chip_events.specs.DiskTurns.{DiskKnown};
ghost use Rattle.eac_net.specs.Objects.{outside};
ghost use Rattle.eac_net.specs.Packets.{AreBetween};
ghost use Rattle.eac_net.specs.Packets as numbers;
ghost use Rattle.eac_net.specs.Parties.{is_any, is_party_of, holder_at, own_named};
ghost use Rattle.eac_net.specs.Steps.{HasStepped};
ghost use Rattle.eac_net.specs.declared.answer.Answer.TheVariants as answers;
ghost use Rattle.eac_net.specs.declared.answer.Applied.TheVariants as applies;

use crate::answer::{Answer, Applied, Happened};
use crate::concluding::{conclude, failed, next_number, told};
use crate::event::Event;
use crate::packet::{Packet, PacketList};
use crate::world::World;
use eac_base::{NoMemory, Octets};
use eac_messages::{Message, write_message};
use holder_core::{HolderFault, Made, fault_of, make_request};
use holder_reference::{Holder, Reference};
use keeper::{Keeper, Part, Row, Table};
use policy_limits::{First, Setup};
use signature_provider::SignatureProvider;
use std::alloc::Global;

/// Who asks whom for a certificate, and by which root.
#[derive(Clone, Copy, Debug, PartialEq, Eq)]
pub struct Asking {
    pub holder: u32,
    pub authority: u32,
    pub root: u32,
}

// The reference of the holder's home authority's founding row, where the registration names one.
fn home_reference(setup: &Setup, authority: u32, holder: &Holder) -> Option<Reference>
    ensures { result ≡ words.home_named setup.now authority holder.now }
{
    let registration = setup.registration(authority, holder)?;
    match registration.first {
        First::Home(reference) => Some(reference),
        First::Bare => None,
    }
}

// The own row of this reference, at the party whose holder the reference has.
fn row_named<B: Keeper>(
    alloc: Global,
    setup: &Setup,
    reference: &Reference,
    keeper: &mut B,
) -> Result<Option<Row>, HolderFault>
    ensures told { Told (B.rows keeper.old) (B.rows keeper.new) (λ before after. (after ≡ before) × IfOk result (λ found.
        found ≡ own_named setup.now before reference.now)) }
    ensures asked { IfOk result (HomeFound setup.now (Some reference.now)) }
    ensures cause { KeeperCaused (B.faults keeper.old) (B.faults keeper.new) result }
{
    let Some(desk) = setup.number_of(&reference.holder()) else {
        return Ok(None);
    };
    match keeper.find(alloc, Table::Own, desk, reference) {
        Ok(found) => Ok(found),
        Err(refusal) => Err(fault_of(refusal)),
    }
}

fn is_signing(row: &Row) -> bool
    ensures { result ≡ is_some (own_signer row.now) }
{
    match &row.part {
        Part::Own(own) => own.settled.is_some(),
        _ => false,
    }
}

// Only a row that has its certificate signs.
fn signing(found: Option<Row>) -> Option<Row>
    ensures same { home_signer result ≡ home_signer found }
    ensures signs { IfSome result (λ row. IsSome (own_signer row)) }
{
    let row = found?;
    if is_signing(&row) { Some(row) } else { None }
}

// The home row, where the registration names one and it has its certificate.
fn home_row<B: Keeper>(
    alloc: Global,
    setup: &Setup,
    authority: u32,
    holder: &Holder,
    keeper: &mut B,
) -> Result<Option<Row>, HolderFault>
    ensures told { Told (B.rows keeper.old) (B.rows keeper.new) (λ before after. (after ≡ before) × IfOk result (λ home.
        home_signer home ≡ words.home_for setup.now (words.home_named setup.now authority holder.now) before)) }
    ensures asked { IfOk result (λ home. words.HomeFor setup.now (words.home_named setup.now authority holder.now)
        (home_signer home)) }
    ensures signs { IfOk result (λ home. IfSome home (λ row. IsSome (own_signer row))) }
    ensures cause { KeeperCaused (B.faults keeper.old) (B.faults keeper.new) result }
{
    let Some(reference) = home_reference(setup, authority, holder) else {
        return Ok(None);
    };
    let found = row_named(alloc, setup, &reference, keeper)?;
    Ok(signing(found))
}

// The name of a party.
fn name_of(setup: &Setup, party: u32) -> &Holder
    requires { IsTrue (is_party_of is_any setup.now party) }
    ensures name { result.now ≡ holder_at setup.now party }
    ensures legal { IsSetup setup.now }
{
    let Some(party) = setup.party(party) else {
        unreachable!();
    };
    &party.holder
}

// Makes the request, with the home row that there is.
fn request<B: Keeper, P: SignatureProvider>(
    alloc: Global,
    setup: &Setup,
    holder: u32,
    authority: u32,
    root: u32,
    keeper: &mut B,
    provider: &mut P,
) -> Result<Made, HolderFault>
    requires { ApplyFits setup.now holder authority root }
    ensures told { Told (B.rows keeper.old) (B.rows keeper.new) (λ before after. Requests (P.says provider.new)
        (P.holds provider.old) (P.holds provider.new) (P.signed provider.old, P.signed provider.new) holder
        (holder_at setup.now holder) (holder_at setup.now authority) (holder_at setup.now root)
        (home_of setup.now authority holder before) before after result) }
    ensures asked { (home : Option Signer) × HomeAsked setup.now authority holder home × IfOk result (RequestAsked
        (P.says provider.new) (P.holds provider.old) (P.holds provider.new) (P.signed provider.old, P.signed provider.new)
        holder (holder_at setup.now holder) (holder_at setup.now authority) (holder_at setup.now root) home) }
    ensures cause { HolderCause (MissesApplying setup.now (P.holds provider.old) holder authority root)
        (B.faults keeper.old, B.faults keeper.new) (P.faults provider.old, P.faults provider.new) result }
    ensures signed { SignsNoBody (P.signed provider.old, P.signed provider.new) }
    ensures provider { signing.StaysTrue (P.says provider.old) (P.says provider.new) (P.holds provider.old)
        (P.holds provider.new) (P.signed provider.old) (P.signed provider.new) }
    ensures legal { IsSetup setup.now }
{
    let name = name_of(setup, holder);
    let asked = name_of(setup, authority);
    let below = name_of(setup, root);
    let home = home_row(alloc, setup, authority, name, keeper)?;
    make_request(
        alloc,
        holder,
        name,
        asked,
        below,
        home.as_ref(),
        keeper,
        provider,
    )
}

// The call that has the request.
fn call(alloc: Global, holder: u32, authority: u32, request: Octets) -> Result<Packet, NoMemory>
    ensures { IfOk result (λ packet. packet ≡ numbers.call_of holder authority (messages.RequestCertificate [] request)) }
{
    let message = Message::RequestCertificate {
        id: Octets::new(alloc),
        request,
    };
    let body = write_message(alloc, &message);
    drop(message);
    Ok(Packet {
        from: holder,
        to: authority,
        reply: false,
        body: body?,
    })
}

// The packet of a request, and its number.
fn sent(
    alloc: Global,
    packets: &PacketList,
    holder: u32,
    authority: u32,
    reference: Reference,
    request: Octets,
) -> Result<Happened, NoMemory>
    ensures { Tells result (Some (answers.Applied (applies.Sent (numbers.next_number packets.now) reference)))
        (numbers.call_of holder authority (messages.RequestCertificate [] request) ∷ []) }
{
    let packet = next_number(packets)?;
    let sent = call(alloc, holder, authority, request)?;
    Ok(Happened {
        answer: Answer::Applied(Applied::Sent { packet, reference }),
        sent: Some(sent),
    })
}

fn answered(
    alloc: Global,
    packets: &PacketList,
    holder: u32,
    authority: u32,
    made: Made,
) -> Result<Happened, NoMemory>
    ensures { Tells result (Some (answers.Applied (applied_as (numbers.next_number packets.now) made)))
        (request_sent holder authority (Ok made)) }
{
    match made {
        Made::Request { reference, bytes } => {
            sent(alloc, packets, holder, authority, reference, bytes)
        }
        Made::Exhausted => Ok(told(Answer::Applied(Applied::Exhausted))),
        Made::NoAuthority => Ok(told(Answer::Applied(Applied::NoAuthority))),
    }
}

fn applied(
    alloc: Global,
    packets: &PacketList,
    holder: u32,
    authority: u32,
    made: Result<Made, HolderFault>,
) -> Result<Happened, NoMemory>
    ensures { Tells result (answer_by (λ a. answers.Applied (applied_as (numbers.next_number packets.now) a)) made)
        (request_sent holder authority made) }
{
    match made {
        Ok(made) => answered(alloc, packets, holder, authority, made),
        Err(fault) => failed(fault),
    }
}

/// The holder makes a request to the authority, below this root, and sends it.
pub fn apply<B: Keeper, P: SignatureProvider>(
    alloc: Global,
    setup: &Setup,
    world: &mut World,
    asking: Asking,
    keeper: &mut B,
    provider: &mut P,
    line: &mut Octets,
) -> Result<(), NoMemory>
    requires fits { ApplyFits setup.now asking.holder asking.authority asking.root }
    requires parties { AreBetween setup.now world.old.packets }
    ensures steps { (disks : ℕ → DiskKnown) → HasStepped setup.now (Event.Apply asking.holder asking.authority asking.root) result (world.old, line.old)
        (world.new, line.new) (outside B.Keeper P.SignatureProvider disks keeper.old provider.old)
        (outside B.Keeper P.SignatureProvider disks keeper.new provider.new) }
    ensures day { world.new.day ≡ world.old.day }
{
    let Asking {
        holder,
        authority,
        root,
    } = asking;
    let made = request(alloc, setup, holder, authority, root, keeper, provider);
    let happened = applied(alloc, &world.packets, holder, authority, made);
    conclude(alloc, world, happened, line)
}
