// One event.
ghost use Rattle.std.specs.Prelude.{◌≡◌, length};
ghost use Rattle.eac_net.specs.Objects.{outside};
ghost use Rattle.eac_net.specs.Chips.{known_of};
ghost use Rattle.eac_net.specs.ChipSteps.{HasRun};
ghost use Rattle.eac_net.specs.Steps.{MayRun, later_day};

use crate::acting::{Asking, apply, found, link, trust};
use crate::asking::ask;
use crate::chips::{import, look, make, present};
use crate::days::begin_day;
use crate::delivering::deliver;
use crate::event::Event;
use crate::pushing::push;
use crate::sending::{fetch, send};
use crate::world::World;
use chip_slots::ChipDisk;
use eac_base::{NoMemory, Octets};
use keeper::Keeper;
use policy_limits::Setup;
use signature_provider::SignatureProvider;
use std::alloc::Global;

/// Runs one event of parties of this setup, or of one of these chips. The text of its answer is appended to the line, without
/// its number and a line feed: nothing for a `day`.
///
/// # Errors
///
/// In want of memory no packet is sent and nothing is appended. What the event did to keeper, provider and disk before
/// stands.
pub fn step<D: ChipDisk, B: Keeper, P: SignatureProvider>(
    alloc: Global,
    setup: &Setup,
    world: &mut World,
    event: &Event,
    chips: &mut [D],
    keeper: &mut B,
    provider: &mut P,
    line: &mut Octets,
) -> Result<(), NoMemory>
    requires { MayRun setup.now (length chips.old) world.old event.now }
    ensures steps { HasRun D.ChipDisk setup.now event.now result (world.old, line.old) (world.new, line.new)
        (outside B.Keeper P.SignatureProvider (known_of D.ChipDisk chips.old) keeper.old provider.old)
        (outside B.Keeper P.SignatureProvider (known_of D.ChipDisk chips.new) keeper.new provider.new)
        chips.old chips.new }
    ensures chips { length chips.new ≡ length chips.old }
    ensures day { world.new.day ≡ later_day world.old.day event.now }
{
    match event {
        Event::Day { day } => begin_day(world, *day, line),
        Event::Ask { reference, bytes } => {
            ask(alloc, world, reference, bytes.as_slice(), keeper, line)
        }
        Event::Found { authority } => {
            found(alloc, setup, world, *authority, keeper, provider, line)
        }
        Event::Link { authority } => {
            link(alloc, setup, world, *authority, keeper, provider, line)
        }
        Event::Trust { party, authority } => {
            trust(alloc, setup, world, *party, *authority, keeper, line)
        }
        Event::Apply {
            holder,
            authority,
            root,
        } => {
            let asking = Asking {
                holder: *holder,
                authority: *authority,
                root: *root,
            };
            apply(alloc, setup, world, asking, keeper, provider, line)
        }
        Event::Fetch { party, desk } => fetch(alloc, world, *party, *desk, line),
        Event::Send { from, to, bytes } => {
            send(alloc, world, *from, *to, bytes.as_slice(), line)
        }
        Event::Push { desk, party } => push(alloc, setup, world, *desk, *party, keeper, line),
        Event::Deliver { packet } => {
            deliver(alloc, setup, world, *packet, keeper, provider, line)
        }
        Event::Make { chip, authority } => {
            make(alloc, world, chips, *chip, *authority, keeper, line)
        }
        Event::Present { chip, terminal } => present(
            alloc, world, chips, *chip, *terminal, keeper, provider, line,
        ),
        Event::Import { chip, bytes } => import(
            alloc,
            world,
            chips,
            *chip,
            bytes.as_slice(),
            provider,
            line,
        ),
        Event::Look { chip } => look(alloc, world, chips, *chip, line),
    }
}
