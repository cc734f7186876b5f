// The certificates that a desk hands out.
ghost use Rattle.std.specs.Prelude.{◌≡◌, ◌<◌, ◌+◌, ◌^◌, ◌++◌, length, IfOk, IfSome, slice_get};
ghost use Rattle.std.specs.Option.{option_copied};
ghost use Rattle.eac_base.specs.Telling.{Told};
ghost use Rattle.holder_core.specs.Faults.{KeeperCaused};
ghost use Rattle.desk_core.specs.Lists.{certificate_in, certificates, last_listed, list_result};
ghost use Rattle.desk_core.specs.Lists.{authority_list, verifier_list, AuthorityAsked, VerifierAsked};

use eac_base::{ByteLists, NoMemory};
use holder_core::{CertList, HolderFault, list_rows};
use keeper::{Keeper, Part, Row, Table};
use std::alloc::Global;

/// A list has no more certificates than so many, the last ones.
pub const MOST_LISTED: usize = 64;

/// The certificate that a row hands out: an authority's, or an own one that has come.
pub fn handed_out(row: &Row) -> Option<&[u8]>
    ensures { option_copied result ≡ certificate_in row.now.part }
{
    match &row.part {
        Part::Own(own) => match &own.settled {
            Some(settled) => Some(settled.certificate.as_slice()),
            None => None,
        },
        Part::Ca(ca) => Some(ca.settled.certificate.as_slice()),
        Part::Register { .. } | Part::Issued(_) => None,
    }
}

// The row at a place of two lists, one behind the other.
fn row_at<'a>(front: &'a [Row], back: &'a [Row], at: usize) -> Option<&'a Row>
    ensures found { option_copied result ≡ slice_get (front.now ++ back.now) at }
    ensures next { IfSome result (λ _. at + 1 < 2 ^ 64) }
{
    if at < front.len() {
        front.get(at)
    } else {
        back.get(at - front.len())
    }
}

// How many certificates two lists of rows hand out.
fn count(front: &[Row], back: &[Row]) -> usize
    ensures { result ≡ length (certificates (front.now ++ back.now)) }
{
    let mut count = 0;
    let mut at = 0;
    'rows: while let Some(row) = row_at(front, back, at) {
        if handed_out(row).is_some() {
            count += 1;
        }
        at += 1;
    }
    count
}

/// The last [`MOST_LISTED`] certificates of rows and of further ones behind them, in their order; all where there
/// aren't more.
pub fn list_last(alloc: Global, front: &[Row], back: &[Row]) -> Result<CertList, NoMemory>
    ensures { IfOk result (λ list. list ≡ last_listed front.now back.now) }
{
    let mut list = ByteLists::new(alloc);
    let mut left = count(front, back);
    let mut at = 0;
    'rows: while let Some(row) = row_at(front, back, at) {
        if let Some(certificate) = handed_out(row) {
            if left <= MOST_LISTED {
                list.push(certificate)?;
            }
            left -= 1;
        }
        at += 1;
    }
    Ok(list)
}

fn listed(list: Result<CertList, NoMemory>) -> Result<CertList, HolderFault>
    ensures { result ≡ list_result list }
{
    match list {
        Ok(list) => Ok(list),
        Err(NoMemory) => Err(HolderFault::NoMemory),
    }
}

/// The certificates that a country authority hands out: its own, in the order of adding, the last [`MOST_LISTED`].
///
/// It changes no row. `KeeperFault` comes only where the keeper's count of faults rose, and `NoMemory`.
pub fn hand_out<B: Keeper>(
    alloc: Global,
    desk: u32,
    keeper: &mut B,
) -> Result<CertList, HolderFault>
    ensures told { Told (B.rows keeper.old) (B.rows keeper.new)
        (λ before after. (after ≡ before) × IfOk result (λ list. list ≡ authority_list desk before)) }
    ensures asked { IfOk result (AuthorityAsked desk) }
    ensures cause { KeeperCaused (B.faults keeper.old) (B.faults keeper.new) result }
{
    let own = list_rows(alloc, Table::Own, desk, keeper)?;
    listed(list_last(alloc, &[], own.as_slice()))
}

/// The certificates that a verifier hands out: those of its authorities and then its own, each in the order of adding,
/// the last [`MOST_LISTED`] of all.
///
/// It changes no row. `KeeperFault` comes only where the keeper's count of faults rose, and `NoMemory`.
pub fn hand_out_both<B: Keeper>(
    alloc: Global,
    desk: u32,
    keeper: &mut B,
) -> Result<CertList, HolderFault>
    ensures told { Told (B.rows keeper.old) (B.rows keeper.new)
        (λ before after. (after ≡ before) × IfOk result (λ list. list ≡ verifier_list desk before)) }
    ensures asked { IfOk result (VerifierAsked desk) }
    ensures cause { KeeperCaused (B.faults keeper.old) (B.faults keeper.new) result }
{
    let cas = list_rows(alloc, Table::Ca, desk, keeper)?;
    let own = list_rows(alloc, Table::Own, desk, keeper)?;
    listed(list_last(alloc, cas.as_slice(), own.as_slice()))
}
