// Lists of certificates that come in.
ghost use Rattle.std.specs.Prelude.{◌≡◌, List, IfOk, OnErr};
ghost use Rattle.eac_base.specs.Telling.{Told};
ghost use Rattle.holder_core.specs.Faults.{HolderCause, KeeperCaused, NoneMissing};
ghost use Rattle.holder_core.specs.Receiving.{is_mine as goes_to_own, LooksMine, TakesItem, TakesNext, NextAsked, ItemCause, Receives, ReceivedAsked, Question, ending};

use crate::looking::look_own;
use crate::received::{CertList, Item, ItemList, Received};
use crate::{HolderFault, take_ca, take_certificate};
use cvc_grammar::view_cert;
use keeper::Keeper;
use signature_provider::SignatureProvider;
use std::alloc::Global;

// Whether a certificate is readable and the party has an own row of its holder reference.
fn is_mine<B: Keeper>(
    alloc: Global,
    party: u32,
    bytes: &[u8],
    keeper: &mut B,
) -> Result<bool, HolderFault>
    ensures told { Told (B.rows keeper.old) (B.rows keeper.new) (λ before after. (after ≡ before) × IfOk result (λ mine.
        mine ≡ goes_to_own party bytes.now before)) }
    ensures asked { IfOk result (LooksMine party bytes.now) }
    ensures cause { KeeperCaused (B.faults keeper.old) (B.faults keeper.new) result }
{
    match view_cert(bytes) {
        Ok(cert) => {
            let own = look_own(alloc, party, &cert.holder, keeper)?;
            Ok(own.is_some())
        }
        Err(_) => Ok(false),
    }
}

// Takes one certificate: for an own key where the party has one of its holder reference, else as an authority's.
fn take_item<B: Keeper, P: SignatureProvider>(
    alloc: Global,
    party: u32,
    bytes: &[u8],
    keeper: &mut B,
    provider: &mut P,
) -> Result<Item, HolderFault>
    ensures took { Told (B.rows keeper.old) (B.rows keeper.new) (λ before after. TakesItem (P.says provider.old) party
        bytes.now before after result) }
    ensures answered { IfOk result (ItemCause (P.says provider.old) party bytes.now) }
    ensures cause { HolderCause NoneMissing (B.faults keeper.old, B.faults keeper.new) (
      P.faults provider.old,
      P.faults
          provider.new,
    ) result }
    ensures says { P.says provider.new ≡ P.says provider.old }
    ensures holds { P.holds provider.new ≡ P.holds provider.old }
    ensures signed { P.signed provider.new ≡ P.signed provider.old }
{
    if is_mine(alloc, party, bytes, keeper)? {
        Ok(Item::Own(take_certificate(alloc, party, bytes, keeper, provider)?))
    } else {
        Ok(Item::Ca(take_ca(alloc, party, bytes, keeper, provider)?))
    }
}

// Takes the next one, for whose item there is room before it is taken.
fn take_next<B: Keeper, P: SignatureProvider>(
    alloc: Global,
    party: u32,
    bytes: &[u8],
    items: &mut Vec<Item>,
    keeper: &mut B,
    provider: &mut P,
) -> Result<(), HolderFault>
    ensures took { Told (B.rows keeper.old) (B.rows keeper.new) (λ before after. TakesNext (P.says provider.old) party
        bytes.now items.old.items items.new.items before after result) }
    ensures kept { OnErr result (items.new.items ≡ items.old.items) }
    ensures answered { IfOk result (λ _. NextAsked (P.says provider.old) party bytes.now items.old.items
        items.new.items) }
    ensures cause { HolderCause NoneMissing (B.faults keeper.old, B.faults keeper.new) (
      P.faults provider.old,
      P.faults
          provider.new,
    ) result }
    ensures says { P.says provider.new ≡ P.says provider.old }
    ensures holds { P.holds provider.new ≡ P.holds provider.old }
    ensures signed { P.signed provider.new ≡ P.signed provider.old }
{
    if items.reserve(1).is_err() {
        return Err(HolderFault::NoMemory);
    }
    let item = take_item(alloc, party, bytes, keeper, provider)?;
    match items.push(item) {
        Ok(()) => Ok(()),
        Err(_) => unreachable!(),
    }
}

/// Takes certificates in order, each by [`take_certificate`] where it is readable and the party has an own row of its
/// holder reference, else by [`take_ca`]. A fault ends it, and the items before stand.
pub fn receive<B: Keeper, P: SignatureProvider>(
    alloc: Global,
    party: u32,
    certificates: &CertList,
    keeper: &mut B,
    provider: &mut P,
) -> Received
    // Where the rows are told after the call: one certificate after another, each from the rows that the one before
    // left.
    ensures received { Told (B.rows keeper.old) (B.rows keeper.new) (λ before after. (asked : List Question) × Receives
        (P.says provider.old) party certificates.now before after result.items result.fault asked) }
    // Whether they are told or not, each item has its cause.
    ensures answered { ReceivedAsked (P.says provider.old) party certificates.now result.items result.fault }
    ensures cause { HolderCause NoneMissing (B.faults keeper.old, B.faults keeper.new) (
      P.faults provider.old,
      P.faults
          provider.new,
    ) (ending result.fault) }
    ensures says { P.says provider.new ≡ P.says provider.old }
    ensures holds { P.holds provider.new ≡ P.holds provider.old }
    ensures signed { P.signed provider.new ≡ P.signed provider.old }
{
    let mut items = Vec::new(alloc);
    let mut at = 0;
    while let Some(bytes) = certificates.get(at) {
        match take_next(alloc, party, bytes, &mut items, keeper, provider) {
            Ok(()) => {}
            Err(fault) => {
                return Received {
                    items: ItemList::from_vec(items),
                    fault: Some(fault),
                };
            }
        }
        at += 1;
    }
    Received {
        items: ItemList::from_vec(items),
        fault: None,
    }
}
