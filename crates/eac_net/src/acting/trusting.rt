// A party stores an authority's founding certificate, carried by hand.
ghost use Rattle.std.specs.Prelude.{◌≡◌, [], IfOk, IfSome, IsSome, is_some};
ghost use Rattle.eac_base.specs.Telling.{Told};
ghost use Rattle.keeper.specs.Keeping.{IsAsked};
ghost use Rattle.keeper.specs.Rows.{row_at, IsStorable};
ghost use Rattle.keeper.specs.declared.rows.Table.TheVariants as table;
ghost use Rattle.holder_core.specs.Faults.{KeeperCaused};
ghost use Rattle.holder_core.specs.Trusting.{carried};
ghost use Rattle.eac_net.specs.Acting as words;
ghost use Rattle.eac_net.specs.Acting.{AuthorityFits, TrustFits, TrustsFounding, TrustAsked, founding_reference, TrustsRow, TrustRowAsked};
ghost use Rattle.eac_net.specs.Answers.{Tells, answer_by};
ghost use Rattle.eac_net.specs.Objects.{Outside, kept_by};
ghost use Rattle.eac_net.specs.Packets.{AreBetween};
ghost use Rattle.eac_net.specs.Steps.{HasStepped};
ghost use Rattle.eac_net.specs.declared.answer.Answer.TheVariants as answers;

use crate::answer::{Answer, Happened, Trusted};
use crate::concluding::{conclude, failed, told};
use crate::event::Event;
use crate::world::World;
use eac_base::{NoMemory, Octets};
use holder_core::{HolderFault, TakenCa, fault_of, numbered, trust_ca};
use keeper::{Keeper, Part, Row, Table};
use policy_limits::Setup;
use std::alloc::Global;

// The authority's own row with the number 1.
fn founding_row<B: Keeper>(
    alloc: Global,
    setup: &Setup,
    authority: u32,
    keeper: &mut B,
) -> Result<Option<Row>, HolderFault>
    requires { AuthorityFits setup.now authority }
    ensures told { Told (B.rows keeper.old) (B.rows keeper.new) (λ before after. (after ≡ before) × IfOk result (λ found.
        found ≡ row_at table.Own authority (founding_reference setup.now authority) before)) }
    ensures asked { IfOk result (λ found. IfSome found (IsAsked table.Own authority (founding_reference setup.now
        authority))) }
    ensures cause { KeeperCaused (B.faults keeper.old) (B.faults keeper.new) result }
{
    let Some(party) = setup.party(authority) else {
        unreachable!();
    };
    let reference = numbered(&party.holder, 1);
    match keeper.find(alloc, Table::Own, authority, &reference) {
        Ok(found) => Ok(found),
        Err(refusal) => Err(fault_of(refusal)),
    }
}

fn is_carried(row: &Row) -> bool
    ensures { result ≡ is_some (carried row.now.part) }
{
    match &row.part {
        Part::Own(own) => own.settled.is_some(),
        _ => false,
    }
}

// Of the refusals `Full` alone comes where a row is handed over.
fn trusted(taken: TakenCa) -> Trusted
    ensures { result ≡ words.trusted_as taken }
{
    match taken {
        TakenCa::Stored(reference) => Trusted::Stored(reference),
        TakenCa::Held(reference) => Trusted::Held(reference),
        TakenCa::Refused(_) => Trusted::Full,
    }
}

// Stores what the row has.
fn trust_row<B: Keeper>(
    alloc: Global,
    party: u32,
    row: &Row,
    keeper: &mut B,
) -> Result<Trusted, HolderFault>
    requires carried { IsSome (carried row.now.part) }
    requires storable { IsStorable row.now }
    ensures told { Told (B.rows keeper.old) (B.rows keeper.new) (λ before after. IfSome (carried row.now.part)
        (λ ca. TrustsRow party row.now.reference ca before after result)) }
    ensures asked { IfOk result (TrustRowAsked party row.now.reference) }
    ensures cause { KeeperCaused (B.faults keeper.old) (B.faults keeper.new) result }
{
    let taken = trust_ca(alloc, party, row, keeper)?;
    Ok(trusted(taken))
}

fn trust_founding<B: Keeper>(
    alloc: Global,
    setup: &Setup,
    party: u32,
    authority: u32,
    keeper: &mut B,
) -> Result<Trusted, HolderFault>
    requires { AuthorityFits setup.now authority }
    ensures told { Told (B.rows keeper.old) (B.rows keeper.new) (λ before after. TrustsFounding setup.now party authority
        before after result) }
    ensures asked { IfOk result (TrustAsked setup.now party authority) }
    ensures cause { KeeperCaused (B.faults keeper.old) (B.faults keeper.new) result }
{
    let Some(row) = founding_row(alloc, setup, authority, keeper)? else {
        return Ok(Trusted::Unfounded);
    };
    if !is_carried(&row) {
        return Ok(Trusted::Unfounded);
    }
    trust_row(alloc, party, &row, keeper)
}

fn answered(trusted: Result<Trusted, HolderFault>) -> Result<Happened, NoMemory>
    ensures { Tells result (answer_by answers.Trusted trusted) [] }
{
    match trusted {
        Ok(trusted) => Ok(told(Answer::Trusted(trusted))),
        Err(fault) => failed(fault),
    }
}

/// The party stores the authority's founding certificate.
pub fn trust<B: Keeper>(
    alloc: Global,
    setup: &Setup,
    world: &mut World,
    party: u32,
    authority: u32,
    keeper: &mut B,
    line: &mut Octets,
) -> Result<(), NoMemory>
    requires fits { TrustFits setup.now party authority }
    requires parties { AreBetween setup.now world.old.packets }
    ensures steps { (o : Outside) → HasStepped setup.now (Event.Trust party authority) result (world.old, line.old)
        (world.new, line.new) (kept_by B.Keeper keeper.old o) (kept_by B.Keeper keeper.new o) }
    ensures day { world.new.day ≡ world.old.day }
{
    let came = trust_founding(alloc, setup, party, authority, keeper);
    conclude(alloc, world, answered(came), line)
}
