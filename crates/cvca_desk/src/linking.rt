// Link certificates of an authority.
ghost use Rattle.std.specs.Prelude.{◌≡◌, ◌<◌, Some, None, Ok, Err, IfOk, IfSome, IsSome, IsTrue, length};
ghost use Rattle.std.specs.List.{All};
ghost use Rattle.eac_base.specs.Telling.{Told};
ghost use Rattle.signature_provider.specs.Key.{is_form};
ghost use Rattle.keeper.specs.Keeping.{IsDeskRow};
ghost use Rattle.keeper.specs.declared.rows.Table.TheVariants as table;
ghost use Rattle.holder_core.specs.Faults.{HolderCause};
ghost use Rattle.holder_core.specs.OwnRows.{own_rows};
ghost use Rattle.holder_core.specs.Signers.{has_legal_form};
ghost use Rattle.holder_core.specs.Signing.{StaysTrue};
ghost use Rattle.cvca_desk.specs.Terms as setups;
ghost use Rattle.cvca_desk.specs.Asking.{AsksDue};
ghost use Rattle.cvca_desk.specs.Linking.{Links, LinksExactly, AsksLink, MissesLink, SignsLink};
ghost use Rattle.cvca_desk.specs.declared.linking.Linked.TheVariants as linked;
ghost use Rattle.cvca_desk.specs.Linking as words;

use crate::due::{Due, Signing, newest_signing};
use crate::entering::enter;
use crate::terms::{Terms, dates, terms_of};
use cv_dates::Day;
use eac_base::NoMemory;
use holder_core::{Added, HolderFault, MOST_KEYS, form_of, list_rows, numbered};
use holder_reference::Reference;
use keeper::{Keeper, Row, Table};
use policy_limits::Setup;
use signature_provider::SignatureProvider;
use std::alloc::Global;

/// What came of a link.
#[derive(Clone, Copy, Debug, PartialEq, Eq)]
pub enum Linked {
    /// The authority has a further certificate, under this reference.
    New(Reference),
    /// It has no certificate yet whose key a new one can be made like.
    Unfounded,
    /// It has no number left.
    Exhausted,
    /// Its newest certificate is of today or later.
    SameDay,
    /// Too few days are left.
    Short,
}

// A link that nothing refuses: the own row that signs, and the dates.
#[derive(Debug, Drop)]
struct Plan<'a> {
    signing: Signing<'a>,
    days: (Day, Day),
}

// What the own rows allow on this day, or the first refusal.
fn plan_link<'a>(own: &'a [Row], terms: &Terms, day: Day) -> Result<Plan<'a>, Linked>
    ensures plans { words.Plans day terms.now own.now result }
    ensures fit { IfOk result (λ p. IsTrue (has_legal_form p.signing.key)) }
{
    let Some(signing) = newest_signing(own) else {
        return Err(Linked::Unfounded);
    };
    if MOST_KEYS <= own.len() {
        return Err(Linked::Exhausted);
    }
    if !signing.settled.from.is_before(&day) {
        return Err(Linked::SameDay);
    }
    match dates(terms, day) {
        Some(days) => Ok(Plan { signing, days }),
        None => Err(Linked::Short),
    }
}

// The certificate that is due: under the next number, of the form of the key that signs.
fn next_due<'a>(
    alloc: Global,
    terms: &Terms,
    count: usize,
    plan: Plan<'a>,
) -> Result<Due<'a>, NoMemory>
    requires room { count < 99999 }
    requires form { IsTrue (has_legal_form plan.signing.key) }
    ensures due { IfOk result (λ d. d ≡ words.link_after terms.now count plan.entry.signing plan.entry.days) }
    ensures form { IfOk result (λ d. IsTrue (is_form d.form)) }
{
    let Plan { signing, days } = plan;
    Ok(Due {
        terms: *terms,
        form: form_of(alloc, signing.key)?,
        reference: numbered(&terms.holder, count as u32 + 1),
        by: Some(signing),
        days,
    })
}

// What is answered to an adding: where the row is there or there is no room, no number is left.
fn linked_as(reference: Reference, added: Added) -> Linked
    ensures { result ≡ words.linked_as reference added }
{
    match added {
        Added::New => Linked::New(reference),
        Added::There(_) | Added::Full => Linked::Exhausted,
    }
}

// Nothing is refused: the certificate is made and its row added.
fn link_next<B: Keeper, P: SignatureProvider>(
    alloc: Global,
    desk: u32,
    terms: &Terms,
    count: usize,
    plan: Plan,
    keeper: &mut B,
    provider: &mut P,
) -> Result<Linked, HolderFault>
    requires room { count < 99999 }
    requires form { IsTrue (has_legal_form plan.signing.key) }
    ensures told { Told (B.rows keeper.old) (B.rows keeper.new) (λ before after. words.Entered (P.says provider.new)
        (P.holds provider.old) (P.holds provider.new) (P.signed provider.old, P.signed provider.new) desk terms.now
        count
        plan.entry.signing plan.entry.days before after result) }
    ensures asked { AsksDue linked.New linked.Exhausted (P.says provider.new) (P.holds provider.old) (P.holds
        provider.new) (P.signed provider.old, P.signed provider.new) (words.link_after terms.now count
        plan.entry.signing plan.entry.days) result }
    ensures provider { StaysTrue (P.says provider.old) (P.says provider.new) (P.holds provider.old) (P.holds
        provider.new) (P.signed provider.old) (P.signed provider.new) }
    ensures cause { HolderCause (words.MissesSigner (P.holds provider.old) plan.entry.signing) (
      B.faults keeper.old,
      B.faults
          keeper.new,
    ) (P.faults provider.old, P.faults provider.new) result }
{
    let Ok(due) = next_due(alloc, terms, count, plan) else {
        return Err(HolderFault::NoMemory);
    };
    let reference = due.reference;
    let added = enter(alloc, desk, &due, keeper, provider)?;
    Ok(linked_as(reference, added))
}

fn link_by<B: Keeper, P: SignatureProvider>(
    alloc: Global,
    desk: u32,
    terms: &Terms,
    day: Day,
    keeper: &mut B,
    provider: &mut P,
) -> Result<Linked, HolderFault>
    ensures links { Told (B.rows keeper.old) (B.rows keeper.new) (λ before after. Links (P.holds provider.old) (P.holds
        provider.new) desk day terms.now (P.says provider.new) before after result) }
    ensures signed { Told (B.rows keeper.old) (B.rows keeper.new) (λ before after. SignsLink (P.holds provider.old)
        (P.holds provider.new) desk day terms.now (P.signed provider.old, P.signed provider.new) before after
        result) }
    ensures exact { Told (B.rows keeper.old) (B.rows keeper.new) (λ before after. LinksExactly (P.holds provider.old)
        (P.holds provider.new) desk day terms.now (P.says provider.new) (P.signed provider.old, P.signed provider.new)
        before after result) }
    ensures asked { AsksLink (P.holds provider.old) (P.holds provider.new) desk day terms.now (P.says provider.new) (
      P.signed provider.old,
      P.signed
          provider.new,
    ) result }
    ensures provider { StaysTrue (P.says provider.old) (P.says provider.new) (P.holds provider.old) (P.holds
        provider.new) (P.signed provider.old) (P.signed provider.new) }
    ensures cause { HolderCause (MissesLink (P.holds provider.old) desk day terms.now) (
      B.faults keeper.old,
      B.faults
          keeper.new,
    ) (P.faults provider.old, P.faults provider.new) result }
{
    let own = list_rows(alloc, Table::Own, desk, keeper)?;
    match plan_link(own.as_slice(), terms, day) {
        Err(refusal) => Ok(refusal),
        Ok(plan) => link_next(alloc, desk, terms, own.len(), plan, keeper, provider),
    }
}

/// Makes a link certificate: for a new key of the form of the newest own key that one can be made like, signed with
/// that key, under the next number.
///
/// In this order, it is `Unfounded` where there is no such key with its certificate, `Exhausted` where the authority
/// has 99,999 own rows or more, `SameDay` where that certificate is effective today or later, and `Short` where fewer
/// than 183 days are left to the last day that there is.
///
/// # Errors
///
/// `KeeperFault` and `ProviderFault` only where that object's count of faults rose; after the first the row may stand.
/// `NoKey` only where the provider didn't hold the key that was to sign. `NoMemory`.
pub fn new_link<B: Keeper, P: SignatureProvider>(
    alloc: Global,
    setup: &Setup,
    desk: u32,
    day: Day,
    keeper: &mut B,
    provider: &mut P,
) -> Result<Linked, HolderFault>
    requires { IsSome (setups.terms setup.now desk) }
    // Where the rows are told after the call: the first refusal, or the certificate and the row that was added.
    ensures links { Told (B.rows keeper.old) (B.rows keeper.new) (λ before after. IfSome (setups.terms setup.now desk)
        (λ t. Links (P.holds provider.old) (P.holds provider.new) desk day t (P.says provider.new) before after
        result)) }
    // What was signed is the body of the row's certificate, by the key of the row that signs; without a row only
    // where the keeper failed, memory was wanting, or a row of its reference was there.
    ensures signed { Told (B.rows keeper.old) (B.rows keeper.new) (λ before after. IfSome (setups.terms setup.now desk)
        (λ t. SignsLink (P.holds provider.old) (P.holds provider.new) desk day t (
          P.signed provider.old,
          P.signed
              provider.new,
        ) before after result)) }
    // Where the own rows are numbered, each answer comes exactly where it is due.
    ensures exact { Told (B.rows keeper.old) (B.rows keeper.new) (λ before after. IfSome (setups.terms setup.now desk)
        (λ t. LinksExactly (P.holds provider.old) (P.holds provider.new) desk day t (P.says provider.new) (
          P.signed provider.old,
          P.signed
              provider.new,
        ) before after result)) }
    // Whether the rows are told or not: a refusal makes no key and signs nothing, and each answer has its cause.
    ensures asked { IfSome (setups.terms setup.now desk) (λ t. AsksLink (P.holds provider.old) (P.holds provider.new)
        desk day t (P.says provider.new) (P.signed provider.old, P.signed provider.new) result) }
    ensures provider { StaysTrue (P.says provider.old) (P.says provider.new) (P.holds provider.old) (P.holds
        provider.new) (P.signed provider.old) (P.signed provider.new) }
    ensures cause { IfSome (setups.terms setup.now desk) (λ t. HolderCause (MissesLink (P.holds provider.old) desk day
        t) (B.faults keeper.old, B.faults keeper.new) (P.faults provider.old, P.faults provider.new) result) }
{
    let Some(terms) = terms_of(setup, desk) else {
        unreachable!();
    };
    link_by(alloc, desk, &terms, day, keeper, provider)
}
