// Setups as texts.
ghost use Rattle.std.specs.Prelude.{◌≡◌, IfErr, OnOk, OnErr, Ok, Err, IsTrue};
ghost use Rattle.eac_base.specs.Answers.{Answers, Refuses};
ghost use Rattle.policy_limits.specs.Setup as setups;
ghost use Rattle.policy_limits.specs.SetupLine as grammar;
ghost use Rattle.policy_limits.specs.declared.setup_line.SetupLine.TheVariants as said;
ghost use Rattle.policy_limits.specs.SetupText as words;
ghost use Rattle.policy_limits.specs.Validity as limits;

use crate::desks::with_more;
use crate::limits::{maximum_days, minimum_days};
use crate::party::PartyKind;
use crate::registration::Registration;
use crate::setup::Setup;
use crate::setup_line::{SetupLine, read_line};
use crate::setup_refusal::SetupRefusal;
use chat_rights::Role;
use eac_base::NoMemory;
use plain_text::lines::next_numbered;
use std::alloc::Global;

/// The most parties of a setup.
const MOST_PARTIES: usize = 1_000;

/// Whether a certificate of this role may be valid for so many days.
fn fits_role(role: Role, days: u32) -> bool
    ensures { result ≡ limits.fits_role role days }
{
    minimum_days(role) <= days && days <= maximum_days(role)
}

fn party_fits(kind: &PartyKind) -> bool
    ensures { result ≡ setups.party_fits kind.now }
{
    match kind {
        PartyKind::Cvca { days, .. } => fits_role(Role::Cvca, *days),
        PartyKind::Dv | PartyKind::Terminal => true,
    }
}

fn registration_fits(registration: &Registration) -> bool
    ensures { result ≡ setups.registration_fits registration.now }
{
    fits_role(registration.role, registration.days)
        && 1 <= registration.live_limit
        && registration.live_limit <= 100
}

/// Whether what a line says is within the limits.
fn fits(setup: &Setup, line: &SetupLine) -> bool
    ensures { result ≡ grammar.fits setup.now line.now }
{
    match line {
        SetupLine::Party(party) => { party_fits(&party.kind) && setup.parties.len() < MOST_PARTIES }
        SetupLine::Registration(registration) => registration_fits(registration),
    }
}

/// Whether no earlier line says it.
fn is_new(setup: &Setup, line: &SetupLine) -> bool
    ensures { result ≡ grammar.is_new setup.now line.now }
{
    match line {
        SetupLine::Party(party) => setup.number_of(&party.holder).is_none(),
        SetupLine::Registration(registration) => setup
            .registration(registration.desk, &registration.holder)
            .is_none(),
    }
}

/// Adds the registration, or nothing where memory is wanting.
fn add_registration(setup: &mut Setup, registration: Registration) -> Result<(), NoMemory>
    requires fits { IsTrue (grammar.fits setup.old (said.Registration registration)) }
    requires new { IsTrue (grammar.is_new setup.old (said.Registration registration)) }
    ensures added { OnOk result (setup.new ≡ grammar.added setup.old (said.Registration registration)) }
    ensures kept { OnErr result (setup.new ≡ setup.old) }
{
    let desks = with_more(setup.desks.take(), &registration);
    setup.registrations.push(registration)?;
    setup.desks = desks;
    Ok(())
}

/// Adds what a line says, or nothing where memory is wanting.
fn add(setup: &mut Setup, line: SetupLine) -> Result<(), NoMemory>
    requires fits { IsTrue (grammar.fits setup.old line) }
    requires new { IsTrue (grammar.is_new setup.old line) }
    ensures added { OnOk result (setup.new ≡ grammar.added setup.old line) }
    ensures kept { OnErr result (setup.new ≡ setup.old) }
{
    match line {
        SetupLine::Party(party) => setup.parties.push(party),
        SetupLine::Registration(registration) => add_registration(setup, registration),
    }
}

/// Adds what the line of this number says, behind the lines that made the setup.
///
/// # Errors
///
/// The first rule that the line breaks, or want of memory, as at [`read_setup`]. The setup is then as it was.
pub fn take_line(setup: &mut Setup, number: u64, line: &[u8]) -> Result<(), SetupRefusal>
    ensures taken { OnOk result (words.with_line setup.old (number, line.now) ≡ Ok setup.new) }
    ensures refused { IfErr result (λ e. Refuses (words.rule_of e) (words.with_line setup.old (number, line.now))) }
    ensures kept { OnErr result (setup.new ≡ setup.old) }
{
    let Some(said) = read_line(setup, line) else {
        return Err(SetupRefusal::Form { line: number });
    };
    if !fits(setup, &said) {
        return Err(SetupRefusal::Limit { line: number });
    }
    if !is_new(setup, &said) {
        return Err(SetupRefusal::Twice { line: number });
    }
    add(setup, said)?;
    Ok(())
}

/// Reads the setup lines of a text. Empty lines and lines that begin with `#` are passed over; an event line is no
/// setup line.
///
/// # Errors
///
/// The first line that breaks a rule, by the first rule that it breaks: [`SetupRefusal::Form`],
/// [`SetupRefusal::Limit`], [`SetupRefusal::Twice`]; or [`SetupRefusal::NoMemory`].
pub fn read_setup(alloc: Global, text: &[u8]) -> Result<Setup, SetupRefusal>
    ensures { Answers (λ s. s) words.rule_of result (words.read_setup text.now) }
{
    let mut setup = Setup::new(alloc);
    let mut last: u64 = 0;
    let mut rest = text;
    while let Some((number, line, after)) = next_numbered(rest, last) {
        take_line(&mut setup, number, line)?;
        last = number;
        rest = after;
    }
    Ok(setup)
}
