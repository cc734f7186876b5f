// What a keeper's rows hand to a chip's event.
ghost use Rattle.std.specs.Prelude.{◌≡◌, ◌++◌, List, option_to_list};
ghost use Rattle.std.specs.Option.{option_copied};
ghost use Rattle.holder_core.specs.Faults.{KeeperCaused};
ghost use Rattle.keeper.specs.declared.rows.Settled.{Settled as SettledValue};
ghost use Rattle.eac_net.specs.ChipCalls.{HandsOver};
ghost use Rattle.eac_net.specs.Handed as words;
ghost use Rattle.eac_net.specs.Handed.{NewestIn, handed_root, handed_chain};
ghost use Rattle.eac_net.specs.Handed.{RootOf as ForRoot, ChainFor as ForChain};
ghost use Rattle.terminal_desk.specs.Chain.{own_certificates};

use eac_base::Octets;
use holder_core::{HolderFault, list_rows};
use holder_reference::Reference;
use keeper::{Keeper, Part, Row, Settled, Table};
use std::alloc::Global;
use terminal_desk::{Chain, SearchRefusal, find_chain};

// The certificate of an own row that has one.
fn certificate_of(row: &Row) -> Option<&Settled>
    ensures { option_copied result ≡ words.certificate_of row.now }
{
    match &row.part {
        Part::Own(own) => own.settled.as_ref(),
        _ => None,
    }
}

// The newer of the newest so far and the next one.
fn newer<'a>(newest: Option<&'a Settled>, next: &'a Settled) -> &'a Settled
    ensures { result.now ≡ words.newer (option_copied newest.entry) next.now }
{
    match newest {
        Some(newest) if next.from.is_before(&newest.from) => newest,
        _ => next,
    }
}

// The newest so far, with the next row, which may wait for its certificate.
fn newest_with<'a>(newest: Option<&'a Settled>, row: &'a Row) -> Option<&'a Settled>
    ensures { (front : List SettledValue) → NewestIn front (option_copied newest.entry)
        → NewestIn (front ++ option_to_list (words.certificate_of row.now)) (option_copied result) }
{
    match certificate_of(row) {
        Some(next) => Some(newer(newest, next)),
        None => newest,
    }
}

// The newest certificate of these own rows.
fn newest_certificate(own: &[Row]) -> Option<&Settled>
    ensures { NewestIn (own_certificates own.now) (option_copied result) }
{
    let mut newest: Option<&Settled> = None;
    for row in own {
        newest = newest_with(newest, row);
    }
    newest
}

/// The newest own certificate of an authority.
pub fn root_due<B: Keeper>(
    alloc: Global,
    authority: u32,
    keeper: &mut B,
) -> Result<Option<Octets>, HolderFault>
    ensures hands { HandsOver B.Keeper keeper.old keeper.new (handed_root (ForRoot authority) result) }
    ensures cause { KeeperCaused (B.faults keeper.old) (B.faults keeper.new) result }
{
    let own = match list_rows(alloc, Table::Own, authority, keeper) {
        Ok(own) => own,
        Err(fault) => return Err(fault),
    };
    match newest_certificate(own.as_slice()) {
        None => Ok(None),
        Some(newest) => match Octets::from_slice(alloc, newest.certificate.as_slice()) {
            Ok(root) => Ok(Some(root)),
            Err(_) => Err(HolderFault::NoMemory),
        },
    }
}

/// The chain of a terminal for a chip whose points have these references.
pub fn chain_due<B: Keeper>(
    alloc: Global,
    terminal: u32,
    points: &[Reference],
    keeper: &mut B,
) -> Result<Chain, SearchRefusal>
    ensures { HandsOver B.Keeper keeper.old keeper.new (handed_chain (ForChain terminal points.now) result) }
{
    find_chain(alloc, terminal, points, keeper)
}
