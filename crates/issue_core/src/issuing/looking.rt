// What the rows say of a request: each look at the keeper by itself.
ghost use Rattle.std.specs.Prelude.{◌≡◌, None, IfOk, IfSome, length, option_map};
ghost use Rattle.eac_base.specs.Telling.{Told};
ghost use Rattle.keeper.specs.Rows.{row_at, rows_of, holder_rows};
ghost use Rattle.keeper.specs.declared.rows.Table.TheVariants as table;
ghost use Rattle.keeper.specs.Keeping.{IsAsked};
ghost use Rattle.issue_core.specs.Issuing.Causes.{KeeperCaused};
ghost use Rattle.cvc_grammar.specs.RequestViews.{seen_outer, seen_request};
ghost use Rattle.issue_core.specs.Issuing.Looks.{signer_seen, voucher_seen, outer_seen, is_live_part, HolderSeen, IsSeen};
ghost use Rattle.issue_core.specs.Issuing.AnswerCauses.{NewestSigns, SignsAs, HeldAs, VouchesAs, OuterVouchesAs, IsSeenAsked};

use crate::IssueFault;
use crate::issuing::deciding::has_expired;
use crate::issuing::seen::{Held, Seen};
use crate::issuing::signer_row::{Signer, newest_signer, signer_at};
use crate::issuing::voucher_row::{Voucher, ca_voucher, is_home_of, issued_voucher_for};
use cv_dates::Day;
use cvc_grammar::{OuterView, RequestView};
use holder_reference::{Holder, Reference};
use keeper::{Keeper, Part, Row, Table};
use policy_limits::{First, Registration};
use std::alloc::Global;

/// The row of a key.
pub fn look<B: Keeper>(
    alloc: Global,
    table: Table,
    desk: u32,
    reference: &Reference,
    keeper: &mut B,
) -> Result<Option<Row>, IssueFault>
    ensures told { Told (B.rows keeper.old) (B.rows keeper.new) (λ before after. (after ≡ before) × IfOk result
        (λ o. o ≡ row_at table desk reference.now before)) }
    ensures asked { IfOk result (λ o. IfSome o (IsAsked table desk reference.now)) }
    ensures cause { KeeperCaused (B.faults keeper.old) (B.faults keeper.new) result }
{
    Ok(keeper.find(alloc, table, desk, reference)?)
}

fn find_newest<B: Keeper>(
    alloc: Global,
    desk: u32,
    keeper: &mut B,
) -> Result<Option<Signer>, IssueFault>
    ensures told { Told (B.rows keeper.old) (B.rows keeper.new) (λ before after. (after ≡ before) × IfOk result
        (λ o. o ≡ signer_seen desk None before)) }
    ensures asked { IfOk result (NewestSigns desk) }
    ensures cause { KeeperCaused (B.faults keeper.old) (B.faults keeper.new) result }
{
    let rows = keeper.of_desk(alloc, Table::Own, desk)?;
    Ok(newest_signer(alloc, rows.as_slice())?)
}

// The own row that signs: the settled one that is named, else the newest settled one.
fn find_signer<B: Keeper>(
    alloc: Global,
    desk: u32,
    authority: &Option<Reference>,
    keeper: &mut B,
) -> Result<Option<Signer>, IssueFault>
    ensures told { Told (B.rows keeper.old) (B.rows keeper.new) (λ before after. (after ≡ before) × IfOk result
        (λ o. o ≡ signer_seen desk authority.now before)) }
    ensures asked { IfOk result (SignsAs desk authority.now) }
    ensures cause { KeeperCaused (B.faults keeper.old) (B.faults keeper.new) result }
{
    match authority {
        Some(reference) => {
            let found = look(alloc, Table::Own, desk, reference, keeper)?;
            Ok(signer_at(found))
        }
        None => find_newest(alloc, desk, keeper),
    }
}

// The row that vouches under a reference: an issued one of this holder, else the home authority's.
fn find_voucher<B: Keeper>(
    alloc: Global,
    desk: u32,
    first: &First,
    holder: &Holder,
    reference: &Reference,
    keeper: &mut B,
) -> Result<Option<Voucher>, IssueFault>
    ensures told { Told (B.rows keeper.old) (B.rows keeper.new) (λ before after. (after ≡ before) × IfOk result
        (λ o. o ≡ voucher_seen desk first.now holder.now reference.now before)) }
    ensures asked { IfOk result (VouchesAs desk first.now holder.now reference.now) }
    ensures cause { KeeperCaused (B.faults keeper.old) (B.faults keeper.new) result }
{
    let issued = look(alloc, Table::Issued, desk, reference, keeper)?;
    let held = issued_voucher_for(holder, issued);
    if held.is_some() || !is_home_of(first, reference) {
        return Ok(held);
    }
    let found = look(alloc, Table::Ca, desk, reference, keeper)?;
    Ok(ca_voucher(found))
}

fn find_outer<B: Keeper>(
    alloc: Global,
    desk: u32,
    first: &First,
    holder: &Holder,
    outer: &Option<OuterView>,
    keeper: &mut B,
) -> Result<Option<Voucher>, IssueFault>
    ensures told { Told (B.rows keeper.old) (B.rows keeper.new) (λ before after. (after ≡ before) × IfOk result
        (λ o. o ≡ outer_seen desk first.now holder.now (option_map seen_outer outer.now) before)) }
    ensures asked { IfOk result (OuterVouchesAs desk first.now holder.now (option_map seen_outer outer.now)) }
    ensures cause { KeeperCaused (B.faults keeper.old) (B.faults keeper.new) result }
{
    match outer {
        None => Ok(None),
        Some(outer) => find_voucher(alloc, desk, first, holder, &outer.reference, keeper),
    }
}

fn is_live(part: &Part, day: Day) -> bool
    ensures { result ≡ is_live_part day part.now }
{
    match part {
        Part::Issued(issued) => !has_expired(issued.settled.until, day),
        Part::Register { .. } | Part::Own(_) | Part::Ca(_) => false,
    }
}

fn count_live(rows: &[Row], day: Day) -> Held
    ensures { HolderSeen day rows.now result }
{
    let live = rows.iter().filter(|row| is_live(&row.part, day)).count();
    Held {
        all: rows.len(),
        live,
    }
}

// How many issued rows a holder has, and how many of them haven't expired.
fn find_held<B: Keeper>(
    alloc: Global,
    desk: u32,
    day: Day,
    holder: &Holder,
    keeper: &mut B,
) -> Result<Held, IssueFault>
    ensures told { Told (B.rows keeper.old) (B.rows keeper.new) (λ before after. (after ≡ before) × IfOk result
        (HolderSeen day (holder_rows table.Issued desk holder.now before))) }
    ensures asked { IfOk result (HeldAs desk day holder.now) }
    ensures cause { KeeperCaused (B.faults keeper.old) (B.faults keeper.new) result }
{
    let rows = keeper.of_holder(alloc, Table::Issued, desk, holder)?;
    Ok(count_live(rows.as_slice(), day))
}

fn find_count<B: Keeper>(alloc: Global, desk: u32, keeper: &mut B) -> Result<u64, IssueFault>
    ensures told { Told (B.rows keeper.old) (B.rows keeper.new) (λ before after. (after ≡ before) × IfOk result
        (λ n. n ≡ length (rows_of table.Issued desk before))) }
    ensures cause { KeeperCaused (B.faults keeper.old) (B.faults keeper.new) result }
{
    Ok(keeper.count(alloc, Table::Issued, desk)?)
}

/// All that the rules 4 to 12 look at.
pub fn gather<B: Keeper>(
    alloc: Global,
    desk: u32,
    day: Day,
    view: &RequestView,
    registration: &Registration,
    keeper: &mut B,
) -> Result<Seen, IssueFault>
    ensures told { Told (B.rows keeper.old) (B.rows keeper.new) (λ before after. (after ≡ before) × IfOk result
        (IsSeen desk day (seen_request view.now) registration.now before)) }
    ensures asked { IfOk result (IsSeenAsked desk day (seen_request view.now) registration.now) }
    ensures cause { KeeperCaused (B.faults keeper.old) (B.faults keeper.new) result }
{
    let holder = view.holder.holder();
    let signer = find_signer(alloc, desk, &view.authority, keeper)?;
    let voucher = find_outer(
        alloc,
        desk,
        &registration.first,
        &holder,
        &view.outer,
        keeper,
    )?;
    let held = find_held(alloc, desk, day, &holder, keeper)?;
    let count = find_count(alloc, desk, keeper)?;
    Ok(Seen {
        signer,
        voucher,
        held,
        count,
    })
}
