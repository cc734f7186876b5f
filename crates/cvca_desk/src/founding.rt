// The first certificate of an authority.
ghost use Rattle.std.specs.Prelude.{◌≡◌, Some, None, Ok, Err, IfOk, IfSome, IsSome, IsTrue, length};
ghost use Rattle.eac_base.specs.Telling.{Told};
ghost use Rattle.signature_provider.specs.Key.{is_form};
ghost use Rattle.holder_core.specs.Faults.{HolderCause, KeeperCaused, NoneMissing};
ghost use Rattle.holder_core.specs.OwnRows.{own_rows};
ghost use Rattle.holder_core.specs.Signing.{StaysTrue};
ghost use Rattle.cvca_desk.specs.Terms as setups;
ghost use Rattle.cvca_desk.specs.Asking.{AsksDue};
ghost use Rattle.cvca_desk.specs.Founding.{Founds, AsksFounding, SignsFounding};
ghost use Rattle.cvca_desk.specs.declared.founding.Founded.TheVariants as founded;
ghost use Rattle.cvca_desk.specs.Founding as words;

use crate::due::Due;
use crate::entering::enter;
use crate::terms::{Terms, dates, terms_of};
use cv_dates::Day;
use eac_base::NoMemory;
use holder_core::{Added, HolderFault, fault_of, numbered};
use holder_reference::Reference;
use keeper::{Keeper, Table};
use policy_limits::Setup;
use signature_provider::{SignatureProvider, plain_form};
use std::alloc::Global;

/// What came of a founding.
#[derive(Clone, Copy, Debug, PartialEq, Eq)]
pub enum Founded {
    /// The authority has its first certificate, under this reference.
    New(Reference),
    /// It has a key of its own already.
    AlreadyFounded,
    /// Too few days are left.
    Short,
}

fn own_count<B: Keeper>(alloc: Global, desk: u32, keeper: &mut B) -> Result<u64, HolderFault>
    ensures told { Told (B.rows keeper.old) (B.rows keeper.new) (λ before after. (after ≡ before) × IfOk result (λ n.
        n ≡ length (own_rows desk before))) }
    ensures cause { KeeperCaused (B.faults keeper.old) (B.faults keeper.new) result }
{
    match keeper.count(alloc, Table::Own, desk) {
        Ok(count) => Ok(count),
        Err(refusal) => Err(fault_of(refusal)),
    }
}

// The dates of the first certificate, or the first refusal.
fn plan_founding(count: u64, terms: &Terms, day: Day) -> Result<(Day, Day), Founded>
    ensures { words.Plans day terms.now count result }
{
    if 0 < count {
        return Err(Founded::AlreadyFounded);
    }
    match dates(terms, day) {
        Some(days) => Ok(days),
        None => Err(Founded::Short),
    }
}

// The certificate that is due: of the form that the setup names, signed by its own key.
fn first_due(alloc: Global, terms: &Terms, days: (Day, Day)) -> Result<Due<'static>, NoMemory>
    ensures due { IfOk result (λ d. d ≡ words.founding_of terms.now days) }
    ensures form { IfOk result (λ d. IsTrue (is_form d.form)) }
{
    Ok(Due {
        terms: *terms,
        form: plain_form(alloc, terms.form)?,
        reference: numbered(&terms.holder, 1),
        by: None,
        days,
    })
}

// What is answered to an adding. A keeper that tells its rows says that it is new, where one has just looked; the
// answer of another one is passed on.
fn founded_as(reference: Reference, added: Added) -> Founded
    ensures { result ≡ words.founded_as reference added }
{
    match added {
        Added::New => Founded::New(reference),
        Added::There(_) | Added::Full => Founded::AlreadyFounded,
    }
}

// Nothing is refused: the certificate is made and its row added.
fn found_first<B: Keeper, P: SignatureProvider>(
    alloc: Global,
    desk: u32,
    terms: &Terms,
    days: (Day, Day),
    keeper: &mut B,
    provider: &mut P,
) -> Result<Founded, HolderFault>
    ensures told { Told (B.rows keeper.old) (B.rows keeper.new) (λ before after. words.Entered (P.says provider.new)
        (P.holds provider.old) (P.holds provider.new) (P.signed provider.old, P.signed provider.new) desk terms.now
        days before
        after result) }
    ensures asked { AsksDue founded.New founded.AlreadyFounded (P.says provider.new) (P.holds provider.old) (P.holds
        provider.new) (P.signed provider.old, P.signed provider.new) (words.founding_of terms.now days) result }
    ensures provider { StaysTrue (P.says provider.old) (P.says provider.new) (P.holds provider.old) (P.holds
        provider.new) (P.signed provider.old) (P.signed provider.new) }
    ensures cause { HolderCause NoneMissing (B.faults keeper.old, B.faults keeper.new) (
      P.faults provider.old,
      P.faults
          provider.new,
    ) result }
{
    let Ok(due) = first_due(alloc, terms, days) else {
        return Err(HolderFault::NoMemory);
    };
    let reference = due.reference;
    let added = enter(alloc, desk, &due, keeper, provider)?;
    Ok(founded_as(reference, added))
}

fn found_by<B: Keeper, P: SignatureProvider>(
    alloc: Global,
    desk: u32,
    terms: &Terms,
    day: Day,
    keeper: &mut B,
    provider: &mut P,
) -> Result<Founded, HolderFault>
    ensures founds { Told (B.rows keeper.old) (B.rows keeper.new) (λ before after. Founds (P.holds provider.old) (P.holds
        provider.new) desk day terms.now (P.says provider.new) before after result) }
    ensures signed { Told (B.rows keeper.old) (B.rows keeper.new) (λ before after. SignsFounding (P.holds provider.old)
        (P.holds provider.new) desk day terms.now (P.signed provider.old, P.signed provider.new) before after
        result) }
    ensures asked { AsksFounding (P.holds provider.old) (P.holds provider.new) day terms.now (P.says provider.new) (
      P.signed provider.old,
      P.signed
          provider.new,
    ) result }
    ensures provider { StaysTrue (P.says provider.old) (P.says provider.new) (P.holds provider.old) (P.holds
        provider.new) (P.signed provider.old) (P.signed provider.new) }
    ensures cause { HolderCause NoneMissing (B.faults keeper.old, B.faults keeper.new) (
      P.faults provider.old,
      P.faults
          provider.new,
    ) result }
{
    let count = own_count(alloc, desk, keeper)?;
    match plan_founding(count, terms, day) {
        Err(refusal) => Ok(refusal),
        Ok(days) => found_first(alloc, desk, terms, days, keeper, provider),
    }
}

/// Makes the first certificate of an authority, under the number 00001: for a new key of the form that the setup names,
/// signed by that key itself.
///
/// An authority that has a key of its own is `AlreadyFounded`. Then it is `Short` where fewer than 183 days are left to
/// the last day that there is.
///
/// # Errors
///
/// `KeeperFault` and `ProviderFault` only where that object's count of faults rose; after the first the row may stand.
/// `NoKey` never comes, since the key that signs was just made. `NoMemory`.
pub fn found<B: Keeper, P: SignatureProvider>(
    alloc: Global,
    setup: &Setup,
    desk: u32,
    day: Day,
    keeper: &mut B,
    provider: &mut P,
) -> Result<Founded, HolderFault>
    requires { IsSome (setups.terms setup.now desk) }
    // Where the rows are told after the call: the first refusal, or the certificate and the row that was added.
    ensures founds { Told (B.rows keeper.old) (B.rows keeper.new) (λ before after. IfSome (setups.terms setup.now desk)
        (λ t. Founds (P.holds provider.old) (P.holds provider.new) desk day t (P.says provider.new) before after
        result)) }
    // What was signed is the body of the row's certificate, by its own key; without a row only where the keeper
    // failed or memory was wanting.
    ensures signed { Told (B.rows keeper.old) (B.rows keeper.new) (λ before after. IfSome (setups.terms setup.now desk)
        (λ t. SignsFounding (P.holds provider.old) (P.holds provider.new) desk day t (
          P.signed provider.old,
          P.signed
              provider.new,
        ) before after result)) }
    // Whether the rows are told or not: a refusal makes no key and signs nothing, and each answer has its cause.
    ensures asked { IfSome (setups.terms setup.now desk) (λ t. AsksFounding (P.holds provider.old) (P.holds
        provider.new) day t (P.says provider.new) (P.signed provider.old, P.signed provider.new) result) }
    ensures provider { StaysTrue (P.says provider.old) (P.says provider.new) (P.holds provider.old) (P.holds
        provider.new) (P.signed provider.old) (P.signed provider.new) }
    ensures cause { HolderCause NoneMissing (B.faults keeper.old, B.faults keeper.new) (
      P.faults provider.old,
      P.faults
          provider.new,
    ) result }
{
    let Some(terms) = terms_of(setup, desk) else {
        unreachable!();
    };
    found_by(alloc, desk, &terms, day, keeper, provider)
}
