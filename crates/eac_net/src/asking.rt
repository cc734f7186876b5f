// Events of the plain register.
ghost use Rattle.std.specs.Prelude.{◌≡◌, [], IsSome};
ghost use Rattle.issue_core.specs.Registering.Desk.{register_outcome};
ghost use Rattle.policy_limits.specs.Setup.{SetupValue};
ghost use Rattle.eac_net.specs.Answers.{Tells, outcome_answer};
ghost use Rattle.eac_net.specs.Asking.{AskFits};
ghost use Rattle.eac_net.specs.Objects.{Outside, kept_by};
ghost use Rattle.eac_net.specs.Packets.{AreBetween};
ghost use Rattle.eac_net.specs.Steps.{HasStepped};

use crate::answer::{Answer, Fault, Happened};
use crate::concluding::{conclude, told};
use crate::event::Event;
use crate::world::World;
use cv_dates::day_text;
use eac_base::{NoMemory, Octets};
use holder_reference::Reference;
use issue_core::{IssueFault, RegisterAnswer, register};
use keeper::Keeper;
use std::alloc::Global;

// Of the faults the keeper's alone comes from the register.
fn registered(
    reference: Reference,
    answer: Result<RegisterAnswer, IssueFault>,
) -> Result<Happened, NoMemory>
    ensures { Tells result (outcome_answer reference (register_outcome answer)) [] }
{
    match answer {
        Ok(answer) => Ok(told(Answer::Registered { reference, answer })),
        Err(IssueFault::KeeperFault) => Ok(told(Answer::Failed(Fault::Keeper))),
        Err(IssueFault::ProviderFault) | Err(IssueFault::NoKey(_)) | Err(IssueFault::NoMemory) => {
            Err(NoMemory)
        }
    }
}

/// Asks the register on the day in force.
pub fn ask<B: Keeper>(
    alloc: Global,
    world: &mut World,
    reference: &Reference,
    bytes: &[u8],
    keeper: &mut B,
    line: &mut Octets,
) -> Result<(), NoMemory>
    requires day { IsSome world.old.day }
    requires size { AskFits bytes.now }
    ensures steps { (setup : SetupValue) (o : Outside) → AreBetween setup world.old.packets
        → HasStepped setup (Event.Ask reference.now bytes.now) result (world.old, line.old) (world.new, line.new)
        (kept_by B.Keeper keeper.old o) (kept_by B.Keeper keeper.new o) }
    ensures day { world.new.day ≡ world.old.day }
{
    let day = world.day.unwrap();
    let answer = register(alloc, day_text(day), reference, bytes, keeper);
    conclude(alloc, world, registered(*reference, answer), line)
}
