// One setup line by its words.
ghost use Rattle.std.specs.Prelude.{◌≡◌, [], ◌∷◌, Some, None, MatchOption};
ghost use Rattle.std.specs.Option.{option_copied};
ghost use Rattle.eac_base.specs.Answers.{◌gives◌};
ghost use Rattle.eac_base.specs.Text.{words};
ghost use Rattle.plain_text.specs.Lines.{pieces_left};
ghost use Rattle.policy_limits.specs.Setup as setups;
ghost use Rattle.policy_limits.specs.SetupLine as grammar;

use crate::limits::{maximum_days, minimum_days};
use crate::party::{Party, PartyKind};
use crate::registration::{First, Registration};
use crate::setup::Setup;
use crate::setup_words::{form_of, holder_of, limited_of, rights_of};
use chat_rights::Role;
use eac_base::is_same;
use holder_reference::{Holder, first_sequence, join};
use plain_text::words::{are_words, cut, next_word, one_word};

/// What a setup line adds.
#[derive(Clone, Copy, Debug, PartialEq, Eq)]
pub enum SetupLine {
    Party(Party),
    Registration(Registration),
}

/// The party that an earlier line names, with its number.
fn named_party<'a>(setup: &'a Setup, word: &[u8]) -> Option<(u32, &'a Party)>
    ensures { let said = grammar.named_party setup.now word.now in MatchOption result (said ≡ None)
        (λ named. said ≡ Some (named.0, named.1.now)) }
{
    let holder = holder_of(word)?;
    let number = setup.number_of(&holder)?;
    let party = setup.party(number)?;
    Some((number, party))
}

/// Whether a party of this kind can have certificates of the role.
fn can_be(role: Role, kind: &PartyKind) -> bool
    ensures { result ≡ setups.can_be role kind.now }
{
    match role {
        Role::Cvca => matches!(kind, PartyKind::Cvca { .. }),
        Role::Domestic | Role::Foreign => matches!(kind, PartyKind::Dv),
        Role::Terminal => matches!(kind, PartyKind::Terminal),
    }
}

/// The holder that an earlier line names, where its party can have certificates of the role.
fn holder_in(setup: &Setup, role: Role, word: &[u8]) -> Option<Holder>
    ensures { result ≡ grammar.holder_in setup.now role word.now }
{
    let (_, party) = named_party(setup, word)?;
    if can_be(role, &party.kind) {
        Some(party.holder)
    } else {
        None
    }
}

/// Reads ROLE at a desk of this kind.
fn role_of(desk: &PartyKind, word: &[u8]) -> Option<Role>
    ensures { result ≡ grammar.role_word desk.now word.now }
{
    match desk {
        PartyKind::Cvca { .. } => {
            if is_same(word, b"domestic") {
                Some(Role::Domestic)
            } else if is_same(word, b"foreign") {
                Some(Role::Foreign)
            } else {
                None
            }
        }
        PartyKind::Dv => {
            if is_same(word, b"terminal") {
                Some(Role::Terminal)
            } else {
                None
            }
        }
        PartyKind::Terminal => None,
    }
}

/// What stands behind `home:`.
fn behind_home(word: &[u8]) -> Option<&[u8]>
    ensures { option_copied result ≡ grammar.behind_home word.now }
{
    word.strip_prefix(b"home:".as_slice())
}

/// Reads `home:AUTH`.
fn home_of(setup: &Setup, word: &[u8]) -> Option<First>
    ensures { result ≡ grammar.home_word setup.now word.now }
{
    let authority = behind_home(word)?;
    let holder = holder_in(setup, Role::Cvca, authority)?;
    Some(First::Home(join(&holder, &first_sequence())))
}

/// Reads FIRST at a desk of this kind.
fn first_of(setup: &Setup, desk: &PartyKind, word: &[u8]) -> Option<First>
    ensures { result ≡ grammar.first_word setup.now desk.now word.now }
{
    if is_same(word, b"bare") {
        return Some(First::Bare);
    }
    match desk {
        PartyKind::Cvca { .. } => home_of(setup, word),
        PartyKind::Dv | PartyKind::Terminal => None,
    }
}

/// Reads `suspended`.
fn suspended_word(word: &[u8]) -> Option<bool>
    ensures { result ≡ grammar.suspended_word word.now }
{
    if is_same(word, b"suspended") {
        Some(true)
    } else {
        None
    }
}

/// Reads `suspended` or nothing.
fn suspended_of(rest: Option<&[u8]>) -> Option<bool>
    ensures { result ≡ grammar.suspended_words (pieces_left (option_copied rest.entry)) }
{
    match rest {
        None => Some(false),
        Some(_) => suspended_word(one_word(rest)?),
    }
}

/// The party of this holder.
fn party_of(kind: PartyKind, word: &[u8]) -> Option<SetupLine>
    ensures { result ≡ grammar.party_of kind word.now }
{
    let holder = holder_of(word)?;
    Some(SetupLine::Party(Party { holder, kind }))
}

/// Reads what stands behind the word `dv` or `terminal`.
fn read_plain(kind: PartyKind, rest: Option<&[u8]>) -> Option<SetupLine>
    ensures { result ≡ grammar.plain_said kind (pieces_left (option_copied rest.entry)) }
{
    party_of(kind, one_word(rest)?)
}

/// The authority of these words.
fn authority_of(holder: &[u8], form: &[u8], rights: &[u8], days: &[u8]) -> Option<SetupLine>
    ensures { result ≡ grammar.authority_of holder.now form.now rights.now days.now }
{
    let form = form_of(form)?;
    let rights = rights_of(rights)?;
    let days = limited_of(days)?;
    party_of(PartyKind::Cvca { form, rights, days }, holder)
}

/// Reads what stands behind the word `cvca`.
fn read_authority(rest: Option<&[u8]>) -> Option<SetupLine>
    ensures { result ≡ grammar.authority_said (pieces_left (option_copied rest.entry)) }
{
    let (holder, rest) = next_word(rest)?;
    let (form, rest) = next_word(rest)?;
    let (rights, rest) = next_word(rest)?;
    authority_of(holder, form, rights, one_word(rest)?)
}

/// Reads what stands behind the word `register`.
fn read_registration(setup: &Setup, rest: Option<&[u8]>) -> Option<SetupLine>
    ensures { result ≡ grammar.registration_said setup.now (pieces_left (option_copied rest.entry)) }
{
    let (desk, rest) = next_word(rest)?;
    let (holder, rest) = next_word(rest)?;
    let (role, rest) = next_word(rest)?;
    let (rights, rest) = next_word(rest)?;
    let (days, rest) = next_word(rest)?;
    let (live_limit, rest) = next_word(rest)?;
    let (first, rest) = next_word(rest)?;
    let suspended = suspended_of(rest)?;
    let (desk, party) = named_party(setup, desk)?;
    let role = role_of(&party.kind, role)?;
    Some(SetupLine::Registration(Registration {
        desk,
        holder: holder_in(setup, role, holder)?,
        role,
        rights: rights_of(rights)?,
        days: limited_of(days)?,
        live_limit: limited_of(live_limit)?,
        first: first_of(setup, &party.kind, first)?,
        suspended,
    }))
}

/// Reads a setup line behind those that made the setup. It is `None` where the line isn't in the grammar.
pub fn read_line(setup: &Setup, line: &[u8]) -> Option<SetupLine>
    ensures { result ≡ (words line.now gives grammar.line_said setup.now) }
{
    if !are_words(line) {
        return None;
    }
    let (kind, rest) = cut(line);
    if is_same(kind, b"cvca") {
        read_authority(rest)
    } else if is_same(kind, b"dv") {
        read_plain(PartyKind::Dv, rest)
    } else if is_same(kind, b"terminal") {
        read_plain(PartyKind::Terminal, rest)
    } else if is_same(kind, b"register") {
        read_registration(setup, rest)
    } else {
        None
    }
}

/// Whether the line is a setup line by its first word, whatever comes behind it.
pub fn is_setup_line(line: &[u8]) -> bool
    ensures { result ≡ grammar.is_setup_line line.now }
{
    let (kind, _) = cut(line);
    is_same(kind, b"cvca")
        || is_same(kind, b"dv")
        || is_same(kind, b"terminal")
        || is_same(kind, b"register")
}
