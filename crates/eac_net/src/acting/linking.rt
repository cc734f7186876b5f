// An authority makes a link certificate.
ghost use Rattle.std.specs.Prelude.{◌≡◌, [], IsSome, ℕ};
ghost use Rattle.eac_net.specs.Acting.{AuthorityFits};
ghost use Rattle.eac_net.specs.Answers.{Tells, answer_by};
ghost use Rattle.chip_events.specs.DiskTurns.{DiskKnown};
ghost use Rattle.eac_net.specs.Objects.{outside};
ghost use Rattle.eac_net.specs.Packets.{AreBetween};
ghost use Rattle.eac_net.specs.Steps.{HasStepped};
ghost use Rattle.eac_net.specs.declared.answer.Answer.TheVariants as answers;

use crate::answer::{Answer, Happened};
use crate::concluding::{conclude, failed, told};
use crate::event::Event;
use crate::world::World;
use cvca_desk::Linked;
use eac_base::{NoMemory, Octets};
use holder_core::HolderFault;
use keeper::Keeper;
use policy_limits::Setup;
use signature_provider::SignatureProvider;
use std::alloc::Global;

fn linked(linked: Result<Linked, HolderFault>) -> Result<Happened, NoMemory>
    ensures { Tells result (answer_by answers.Linked linked) [] }
{
    match linked {
        Ok(linked) => Ok(told(Answer::Linked(linked))),
        Err(fault) => failed(fault),
    }
}

/// The authority of this number links on the day in force.
pub fn link<B: Keeper, P: SignatureProvider>(
    alloc: Global,
    setup: &Setup,
    world: &mut World,
    authority: u32,
    keeper: &mut B,
    provider: &mut P,
    line: &mut Octets,
) -> Result<(), NoMemory>
    requires day { IsSome world.old.day }
    requires authority { AuthorityFits setup.now authority }
    requires parties { AreBetween setup.now world.old.packets }
    ensures steps { (disks : ℕ → DiskKnown) → HasStepped setup.now (Event.Link authority) result (world.old, line.old) (world.new, line.new)
        (outside B.Keeper P.SignatureProvider disks keeper.old provider.old)
        (outside B.Keeper P.SignatureProvider disks keeper.new provider.new) }
    ensures day { world.new.day ≡ world.old.day }
{
    let day = world.day.unwrap();
    let came = cvca_desk::new_link(alloc, setup, authority, day, keeper, provider);
    conclude(alloc, world, linked(came), line)
}
