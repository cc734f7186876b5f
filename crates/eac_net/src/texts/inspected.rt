// The texts of what came of chips' events.
ghost use Rattle.std.specs.Prelude.{◌≡◌, ◌∷◌, ◌++◌, [], map, IfOk, OnOk};
ghost use Rattle.eac_net.specs.Delivered.{listed};
ghost use Rattle.eac_net.specs.Inspected as words;

use crate::answer::Presented;
use crate::texts::delivered::push_at;
use crate::texts::{named, numbered};
use chat_rights::{Kind, rights_text};
use chip_events::{Grant, ImportAnswer, Looked, MakeAnswer, Shown, ShownEnd, Taken, TakenList};
use chip_slots::ChipRefusal;
use chip_verify::{ChipState, Imported};
use cv_dates::{Day, day_text};
use eac_base::{NoMemory, Octets};
use std::alloc::Global;

fn refusal_text(alloc: Global, refusal: &ChipRefusal) -> Result<Octets, NoMemory>
    ensures { IfOk result (λ text. text ≡ words.refusal_text refusal.now) }
{
    match refusal {
        ChipRefusal::NoChip => Octets::from_slice(alloc, b"nochip"),
        ChipRefusal::DiskFault => Octets::from_slice(alloc, b"fault disk"),
        ChipRefusal::ProviderFault => Octets::from_slice(alloc, b"fault provider"),
        ChipRefusal::NeedsOpen => Octets::from_slice(alloc, b"needs opening"),
        ChipRefusal::Syntax(why) => numbered(alloc, b"syntax ", why.number() as u64),
        ChipRefusal::Refused(rule) => numbered(alloc, b"refused ", rule.number() as u64),
        ChipRefusal::Worn => Octets::from_slice(alloc, b"worn"),
    }
}

// Appends the chip's day.
fn push_day(text: &mut Octets, day: Day) -> Result<(), NoMemory>
    ensures { OnOk result (text.new ≡ words.on_day text.old day) }
{
    text.push_all(b" day ")?;
    text.push_all(&day_text(day))
}

/// What came of a making.
pub(crate) fn made_text(alloc: Global, made: &MakeAnswer) -> Result<Octets, NoMemory>
    ensures { IfOk result (λ text. text ≡ words.made_text made.now) }
{
    match made {
        MakeAnswer::Made { holder } => named(alloc, b"made ", holder.as_slice()),
        MakeAnswer::Unfounded => Octets::from_slice(alloc, b"refused unfounded"),
        MakeAnswer::WrongSize => Octets::from_slice(alloc, b"refused size"),
        MakeAnswer::WasMade => Octets::from_slice(alloc, b"refused made"),
        MakeAnswer::DiskFault => Octets::from_slice(alloc, b"fault disk"),
    }
}

// Appends the references of the points, the older one's first.
fn push_points(text: &mut Octets, state: &ChipState) -> Result<(), NoMemory>
    ensures { OnOk result (text.new
        ≡ text.old ++ words.points_text state.now.older state.now.newest.reference) }
{
    if let Some(older) = &state.older {
        text.push_all(older.reference.as_slice())?;
        text.push_all(b" ")?;
    }
    text.push_all(state.newest.reference.as_slice())
}

fn read_text(alloc: Global, state: &ChipState, generation: u64) -> Result<Octets, NoMemory>
    ensures { IfOk result (λ text. text ≡ words.read_text state.now generation) }
{
    let mut text = named(alloc, b"day ", &day_text(state.day))?;
    text.push_all(b" points ")?;
    push_points(&mut text, state)?;
    let number = numbered(alloc, b" generation ", generation)?;
    text.push_all(number.as_slice())?;
    Ok(text)
}

/// What a chip tells.
pub(crate) fn looked_text(alloc: Global, looked: &Looked) -> Result<Octets, NoMemory>
    ensures { IfOk result (λ text. text ≡ words.looked_text looked.now) }
{
    match looked {
        Looked::Read { state, generation } => read_text(alloc, state, *generation),
        Looked::NotOpened(refusal) => refusal_text(alloc, refusal),
    }
}

fn item_word(what: Imported) -> &'static [u8]
    ensures { result.now ≡ words.item_word what }
{
    match what {
        Imported::Held => b"held ",
        Imported::Link => b"link ",
        Imported::Verifier => b"verifier ",
        Imported::Terminal => b"terminal ",
    }
}

fn taken_text(alloc: Global, taken: &Taken) -> Result<Octets, NoMemory>
    ensures { IfOk result (λ text. text ≡ words.taken_text taken.now) }
{
    named(alloc, item_word(taken.what), taken.holder.as_slice())
}

// The certificate that the chip took, and the day that it has then.
fn took_text(alloc: Global, taken: &Taken, day: Day) -> Result<Octets, NoMemory>
    ensures { IfOk result (λ text. text ≡ words.on_day (words.taken_text taken.now) day) }
{
    let mut text = taken_text(alloc, taken)?;
    push_day(&mut text, day)?;
    Ok(text)
}

/// What came of one certificate.
pub(crate) fn imported_text(alloc: Global, imported: &ImportAnswer) -> Result<Octets, NoMemory>
    ensures { IfOk result (λ text. text ≡ words.imported_text imported.now) }
{
    match imported {
        ImportAnswer::NotOpened(refusal) => refusal_text(alloc, refusal),
        ImportAnswer::Took { taken, day } => took_text(alloc, taken, *day),
        ImportAnswer::NotTaken(refusal) => refusal_text(alloc, refusal),
    }
}

fn grant_text(alloc: Global, grant: &Grant) -> Result<Octets, NoMemory>
    ensures { IfOk result (λ text. text ≡ words.grant_text grant.now) }
{
    let rights = rights_text(Kind::Inspection, grant.rights);
    let mut text = named(alloc, b"grant ", rights.as_slice())?;
    push_day(&mut text, grant.day)?;
    Ok(text)
}

// The texts of the certificates that were taken, one behind the other.
fn items_text(alloc: Global, taken: &TakenList) -> Result<Octets, NoMemory>
    ensures { IfOk result (λ text. text ≡ listed 0 (map words.taken_text taken.now)) }
{
    let mut text = Octets::new(alloc);
    for at in 0..taken.len() {
        let Some(item) = taken.get(at) else {
            unreachable!();
        };
        let more = taken_text(alloc, item)?;
        push_at(&mut text, at, more.as_slice())?;
    }
    Ok(text)
}

// This item stands behind them, as the last.
fn ended_text(alloc: Global, taken: &TakenList, last: &[u8]) -> Result<Octets, NoMemory>
    ensures { IfOk result (λ text. text
        ≡ listed 0 (map words.taken_text taken.now ++ last.now ∷ [])) }
{
    let mut text = items_text(alloc, taken)?;
    push_at(&mut text, taken.len(), last)?;
    Ok(text)
}

fn shown_text(alloc: Global, shown: &Shown) -> Result<Octets, NoMemory>
    ensures { IfOk result (λ text. text ≡ words.shown_text shown.now) }
{
    match &shown.end {
        ShownEnd::AllTaken(None) => items_text(alloc, &shown.taken),
        ShownEnd::AllTaken(Some(grant)) => {
            let last = grant_text(alloc, grant)?;
            ended_text(alloc, &shown.taken, last.as_slice())
        }
        ShownEnd::NotTaken(refusal) => {
            let last = refusal_text(alloc, refusal)?;
            ended_text(alloc, &shown.taken, last.as_slice())
        }
    }
}

/// What came of a chain that was to be shown.
pub(crate) fn presented_text(alloc: Global, presented: &Presented) -> Result<Octets, NoMemory>
    ensures { IfOk result (λ text. text ≡ words.presented_text presented.now) }
{
    match presented {
        Presented::NotOpened(refusal) => refusal_text(alloc, refusal),
        Presented::NoChain => Octets::from_slice(alloc, b"nochain"),
        Presented::Shown(shown) => shown_text(alloc, shown),
    }
}
