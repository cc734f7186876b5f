// A whole script.
ghost use Rattle.std.specs.Prelude.{◌≡◌, ◌+◌, [], ◌∷◌, ◌++◌, length, None, Ok, IfOk, IfErr, OnOk};
ghost use Rattle.policy_limits.specs.SetupText.{with_line};
ghost use Rattle.eac_cli.specs.LineGrammar.{event_of};
ghost use Rattle.eac_cli.specs.LineRules.{rule_of};
ghost use Rattle.eac_cli.specs.Script.{IsScript, FaultOf, Alone, line_of, named_of, events_of, day_begun, last_day};
ghost use Rattle.eac_cli.specs.Script.{setup_rule, late_rule, setup_rule_behind, order_rule, count_rule};
ghost use Rattle.eac_cli.specs.Script.{event_rule_behind, broken_behind, refused_at, Takes, Breaks};

use crate::event::{EventLine, EventLines};
use crate::line_grammar::read_event;
use crate::line_rule::{LineRefusal, LineRule};
use crate::named_event::NamedEvent;
use crate::naming::event_in;
use cv_dates::Day;
use plain_text::lines::next_numbered;
use policy_limits::{Setup, SetupRefusal, is_setup_line, take_line};
use std::alloc::Global;

/// The most event lines of a script.
const MOST_EVENTS: usize = 20_000;

/// A script: its setup, and its events, each with its line.
#[derive(Debug, Drop)]
pub struct Script {
    pub setup: Setup,
    pub events: EventLines,
}

/// Why bytes weren't read as a script.
#[derive(Clone, Copy, Debug, PartialEq, Eq)]
pub enum ScriptRefusal {
    /// This is the first line that breaks a rule, and the number of the first rule that it breaks.
    Fault { line: u64, rule: u8 },
    /// Memory is wanting.
    NoMemory,
}

/// The day that the event begins.
fn day_begun(event: &NamedEvent) -> Option<Day>
    ensures { result ≡ day_begun event.now }
{
    match event {
        NamedEvent::Day { day } => Some(*day),
        NamedEvent::Ask { .. }
        | NamedEvent::Found { .. }
        | NamedEvent::Link { .. }
        | NamedEvent::Trust { .. }
        | NamedEvent::Apply { .. }
        | NamedEvent::Fetch { .. }
        | NamedEvent::Push { .. }
        | NamedEvent::Send { .. }
        | NamedEvent::Deliver { .. }
        | NamedEvent::Make { .. }
        | NamedEvent::Present { .. }
        | NamedEvent::Import { .. }
        | NamedEvent::Look { .. } => None,
    }
}

/// The rule of order that an event breaks which begins this day, where `today` is the day in force.
fn order_rule(today: &Option<Day>, begun: &Option<Day>) -> Option<LineRule>
    ensures { result ≡ order_rule today.now begun.now }
{
    match (today, begun) {
        (None, None) => Some(LineRule::TooEarly),
        (Some(today), Some(day)) => {
            if day.is_before(today) {
                Some(LineRule::DayFalls)
            } else {
                None
            }
        }
        (None, Some(_)) | (Some(_), None) => None,
    }
}

/// The rule of number that the next event breaks behind so many.
fn count_rule(events: usize) -> Option<LineRule>
    ensures { result ≡ count_rule events }
{
    if events < MOST_EVENTS {
        None
    } else {
        Some(LineRule::TooMany)
    }
}

/// The refusal of a script for that of this line.
fn refused_at(line: u64, refusal: LineRefusal) -> ScriptRefusal
    ensures { result ≡ refused_at line refusal }
{
    match refusal {
        LineRefusal::Rule(rule) => ScriptRefusal::Fault {
            line,
            rule: rule.number(),
        },
        LineRefusal::NoMemory => ScriptRefusal::NoMemory,
    }
}

/// The refusal of a script's line for that of a setup's.
fn setup_refused(refusal: SetupRefusal) -> LineRefusal
    ensures { rule_of result ≡ setup_rule refusal }
{
    match refusal {
        SetupRefusal::Form { .. } => LineRefusal::Rule(LineRule::Grammar),
        SetupRefusal::Limit { .. } => LineRefusal::Rule(LineRule::Limit),
        SetupRefusal::Twice { .. } => LineRefusal::Rule(LineRule::Twice),
        SetupRefusal::NoMemory => LineRefusal::NoMemory,
    }
}

/// Takes a setup line behind so many events. After a refusal the setup is one that no script has.
fn take_setup(setup: &mut Setup, events: usize, line: u64, text: &[u8]) -> Result<(), LineRefusal>
    ensures taken { OnOk result (with_line setup.old (line, text.now) ≡ Ok setup.new) }
    ensures in_place { OnOk result (late_rule events ≡ None) }
    ensures refused { IfErr result (λ refusal.
        Breaks refusal (setup_rule_behind (Ok setup.old) events (line, text.now))) }
{
    if let Err(refusal) = take_line(setup, line, text) {
        return Err(setup_refused(refusal));
    }
    if 0 < events {
        return Err(LineRefusal::Rule(LineRule::TooLate));
    }
    Ok(())
}

/// Takes a line that is no setup line.
fn take_event(
    alloc: Global,
    setup: &Setup,
    events: &mut EventLines,
    today: &mut Option<Day>,
    chips: u32,
    line: u64,
    text: &[u8],
) -> Result<(), LineRefusal>
    ensures fine { OnOk result
        (event_rule_behind (Ok setup.now) today.old (length events.old) (event_of chips text.now) ≡ None) }
    ensures day { OnOk result (today.new ≡ last_day today.old (named_of ((line, Alone (event_of chips text.now)) ∷ []))) }
    ensures events { OnOk result
        (events.new ≡ events.old ++ events_of setup.now ((line, Alone (event_of chips text.now)) ∷ [])) }
    ensures count { OnOk result
        (length events.new ≡ length events.old + length (named_of ((line, Alone (event_of chips text.now)) ∷ []))) }
    ensures refused { IfErr result (λ refusal.
        Breaks refusal (event_rule_behind (Ok setup.now) today.old (length events.old) (event_of chips text.now))) }
{
    let named = read_event(alloc, text, chips)?;
    let begun = day_begun(&named);
    if let Some(rule) = order_rule(today, &begun) {
        return Err(LineRefusal::Rule(rule));
    }
    let Some(event) = event_in(setup, named) else {
        return Err(LineRefusal::Rule(LineRule::Party));
    };
    if let Some(rule) = count_rule(events.len()) {
        return Err(LineRefusal::Rule(rule));
    }
    if begun.is_some() {
        *today = begun;
    }
    if events.push(EventLine { line, event }).is_err() {
        return Err(LineRefusal::NoMemory);
    }
    Ok(())
}

/// Takes the line of this number, or names the first rule that it breaks.
fn take(
    alloc: Global,
    script: &mut Script,
    today: &mut Option<Day>,
    chips: u32,
    line: u64,
    text: &[u8],
) -> Result<(), LineRefusal>
    ensures taken { OnOk result (Takes (line_of chips (line, text.now)) script.old.setup script.new.setup today.old today.new
        script.old.events script.new.events) }
    ensures refused { IfErr result (λ refusal. Breaks refusal
        (broken_behind (Ok script.old.setup) today.old (length script.old.events) (line_of chips (line, text.now)))) }
{
    if is_setup_line(text) {
        take_setup(&mut script.setup, script.events.len(), line, text)
    } else {
        take_event(
            alloc,
            &script.setup,
            &mut script.events,
            today,
            chips,
            line,
            text,
        )
    }
}

/// Reads a whole script over so many chips. A fault names the first line that breaks a rule and the least rule that it
/// breaks.
pub fn read_script(alloc: Global, bytes: &[u8], chips: u32) -> Result<Script, ScriptRefusal>
    ensures script { IfOk result (λ script. IsScript bytes.now chips script.setup script.events) }
    ensures fault { IfErr result (λ refusal. FaultOf bytes.now chips refusal) }
{
    let mut script = Script {
        setup: Setup::new(alloc),
        events: EventLines::new(alloc),
    };
    let mut today: Option<Day> = None;
    let mut last: u64 = 0;
    let mut rest = bytes;
    while let Some((line, text, after)) = next_numbered(rest, last) {
        if let Err(refusal) = take(alloc, &mut script, &mut today, chips, line, text) {
            return Err(refused_at(line, refusal));
        }
        last = line;
        rest = after;
    }
    Ok(script)
}
