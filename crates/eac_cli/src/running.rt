// The loop over the lines of a script.
ghost use Rattle.std.specs.Prelude.{◌≡◌, ◌++◌, None, IfSome, OnOk, length};
ghost use Rattle.eac_net.specs.Chips.{known_of};
ghost use Rattle.eac_net.specs.Objects.{outside};
ghost use Rattle.eac_net.specs.Steps as net;
ghost use Rattle.eac_cli.specs.Objects.{run_objects};
ghost use Rattle.eac_cli.specs.Steps.{has_line, head_of, MayRunAll, Lined, Sent};
ghost use Rattle.eac_cli.specs.Top.{Whole, Stopped};

use crate::event::EventLine;
use crate::journal::{push_head, write_line};
use chip_slots::ChipDisk;
use eac_base::{Acks, Failed, NoMemory, Octets, Sink};
use eac_net::laws::run_of;
use eac_net::{Event, World, step};
use headline::laws::runs_keep_their_word;
use keeper::Keeper;
use policy_limits::Setup;
use signature_provider::SignatureProvider;
use std::alloc::Global;

/// Why a run stopped before its last line.
#[derive(Clone, Copy, Debug, PartialEq, Eq)]
pub enum Stop {
    WriteFault,
    NoMemory,
}

// Whether the event has a journal line.
fn has_line(event: &Event) -> bool
    ensures { result ≡ has_line event.now }
{
    match event {
        Event::Day { .. } => false,
        Event::Ask { .. }
        | Event::Found { .. }
        | Event::Link { .. }
        | Event::Trust { .. }
        | Event::Apply { .. }
        | Event::Fetch { .. }
        | Event::Send { .. }
        | Event::Push { .. }
        | Event::Deliver { .. }
        | Event::Make { .. }
        | Event::Present { .. }
        | Event::Import { .. }
        | Event::Look { .. } => true,
    }
}

// Appends what the event's line begins with, where it has one.
fn begin_line(alloc: Global, line: &EventLine, text: &mut Octets) -> Result<(), NoMemory>
    ensures { OnOk result (text.new ≡ text.old ++ head_of line.now) }
{
    if has_line(&line.event) {
        push_head(alloc, text, line.line)
    } else {
        Ok(())
    }
}

// Runs one event, and gives its journal line but for the line feed: no bytes for a `day`. Whatever memory the line
// wants is there before the event or within it.
fn event_line<D: ChipDisk, B: Keeper, P: SignatureProvider>(
    alloc: Global,
    setup: &Setup,
    world: &mut World,
    line: &EventLine,
    chips: &mut [D],
    keeper: &mut B,
    provider: &mut P,
) -> Result<Octets, NoMemory>
    requires { net.MayRun setup.now (length chips.old) world.old line.now.event }
    ensures chips { length chips.new ≡ length chips.old }
    ensures day { OnOk result (world.new.day ≡ net.later_day world.old.day line.now.event) }
    ensures ran { Lined D.ChipDisk setup.now line.now result world.old world.new
        (outside B.Keeper P.SignatureProvider (known_of D.ChipDisk chips.old) keeper.old provider.old)
        (outside B.Keeper P.SignatureProvider (known_of D.ChipDisk chips.new) keeper.new provider.new)
        chips.old chips.new }
{
    let mut text = Octets::new(alloc);
    begin_line(alloc, line, &mut text)?;
    step(
        alloc,
        setup,
        world,
        &line.event,
        chips,
        keeper,
        provider,
        &mut text,
    )?;
    Ok(text)
}

// Runs one event, and writes its journal line.
fn run_line<K: Sink, D: ChipDisk, B: Keeper, P: SignatureProvider>(
    alloc: Global,
    setup: &Setup,
    world: &mut World,
    line: &EventLine,
    sink: &mut K,
    chips: &mut [D],
    keeper: &mut B,
    provider: &mut P,
) -> Result<(), Stop>
    requires { net.MayRun setup.now (length chips.old) world.old line.now.event }
    ensures chips { length chips.new ≡ length chips.old }
    ensures day { OnOk result (world.new.day ≡ net.later_day world.old.day line.now.event) }
    ensures ran { Sent D.ChipDisk setup.now line.now result world.old world.new
        (run_objects K.Stream D.ChipDisk B.Keeper P.SignatureProvider sink.old chips.old keeper.old provider.old)
        (run_objects K.Stream D.ChipDisk B.Keeper P.SignatureProvider sink.new chips.new keeper.new provider.new) }
{
    let Ok(text) = event_line(alloc, setup, world, line, chips, keeper, provider) else {
        return Err(Stop::NoMemory);
    };
    match write_line(sink, text.as_slice()) {
        Ok(()) => Ok(()),
        Err(Failed) => Err(Stop::WriteFault),
    }
}

/// How a run of lines ended: how many were run with their whole journal line, why it stopped before the last one, and
/// the imports that chips acknowledged.
#[derive(Debug, Drop)]
pub struct RunEnd {
    pub done: u64,
    pub stop: Option<Stop>,
    pub acks: Acks,
}

/// Runs the lines in order, each with its journal line before the next one.
pub fn run_lines<K: Sink, D: ChipDisk, B: Keeper, P: SignatureProvider>(
    alloc: Global,
    setup: &Setup,
    lines: &[EventLine],
    sink: &mut K,
    chips: &mut [D],
    keeper: &mut B,
    provider: &mut P,
) -> RunEnd
    requires { MayRunAll setup.now (length chips.old) None lines.now }
    ensures chips { length chips.new ≡ length chips.old }
    ensures whole { result.stop ≡ None → Whole D.ChipDisk setup.now
        (run_objects K.Stream D.ChipDisk B.Keeper P.SignatureProvider sink.old chips.old keeper.old provider.old)
        (run_objects K.Stream D.ChipDisk B.Keeper P.SignatureProvider sink.new chips.new keeper.new provider.new)
        lines.now result.done result.acks.acks }
    ensures stopped { IfSome result.stop (λ stop. Stopped D.ChipDisk setup.now
        (run_objects K.Stream D.ChipDisk B.Keeper P.SignatureProvider sink.old chips.old keeper.old provider.old)
        (run_objects K.Stream D.ChipDisk B.Keeper P.SignatureProvider sink.new chips.new keeper.new provider.new)
        stop lines.now result.done result.acks.acks) }
{
    run_of(chips);
    runs_keep_their_word(chips);
    let mut world = World::new(alloc);
    let mut done: u64 = 0;
    for line in lines {
        match run_line(
            alloc, setup, &mut world, line, sink, chips, keeper, provider,
        ) {
            Ok(()) => {}
            Err(stop) => {
                return RunEnd {
                    done,
                    stop: Some(stop),
                    acks: world.into_acks(),
                };
            }
        }
        done += 1;
    }
    RunEnd {
        done,
        stop: None,
        acks: world.into_acks(),
    }
}
