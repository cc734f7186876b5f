// The rules 4 to 12, by what was seen of the rows: one test each.
ghost use Rattle.std.specs.Prelude.{◌≡◌, ◌||◌, nat_le, nat_lt, option_map};
ghost use Rattle.cvc_grammar.specs.RequestViews.{seen_outer, seen_request};
ghost use Rattle.issue_core.specs.Issuing.Rules.{has_home, differs_from};
ghost use Rattle.issue_core.specs.Issuing.SeenRules.{is_outer_missing, is_outer_unknown, is_outer_expired, Decides};

use crate::Rule;
use crate::issuing::seen::Seen;
use crate::issuing::signer_row::Signer;
use crate::issuing::voucher_row::Voucher;
use cv_dates::Day;
use cvc_grammar::{OuterView, RequestView};
use eac_base::is_same;
use keeper::MOST_ROWS;
use policy_limits::{First, Registration, minimum_days, validity};

/// What the rules 4 to 12 leave: the row to sign with, and the first and the last day of the certificate.
#[derive(Clone, Copy)]
pub struct Grant<'a> {
    pub signer: &'a Signer,
    pub days: (Day, Day),
}

/// Whether a certificate that is valid until that day has expired.
pub fn has_expired(until: Day, day: Day) -> bool
    ensures { result ≡ nat_lt until day }
{
    until.number() < day.number()
}

fn differs(view: &RequestView, signer: &Signer) -> bool
    ensures { result ≡ differs_from (seen_request view.now) signer.now }
{
    !(view.key.algorithm.arc == signer.key.algorithm.arc
        && view.key.algorithm.last == signer.key.algorithm.last
        && is_same(view.key.domain, signer.key.domain.as_slice()))
}

fn names_home(first: &First) -> bool
    ensures { result ≡ has_home first.now }
{
    match first {
        First::Home(_) => true,
        First::Bare => false,
    }
}

fn lacks_outer(first: &First, outer: &Option<OuterView>, held: usize) -> bool
    ensures { result ≡ is_outer_missing first.now (option_map seen_outer outer.now) held }
{
    match outer {
        Some(_) => false,
        None => names_home(first) || !(held == 0),
    }
}

fn lacks_voucher(outer: &Option<OuterView>, voucher: &Option<Voucher>) -> bool
    ensures { result ≡ is_outer_unknown (option_map seen_outer outer.now) voucher.now }
{
    match outer {
        Some(_) => voucher.is_none(),
        None => false,
    }
}

fn has_expired_voucher(day: Day, voucher: &Option<Voucher>) -> bool
    ensures { result ≡ is_outer_expired day voucher.now }
{
    match voucher {
        Some(voucher) => has_expired(voucher.until, day),
        None => false,
    }
}

fn is_at_limit(limit: u32, live: usize) -> bool
    ensures { result ≡ nat_le limit live }
{
    limit as usize <= live
}

/// The first of the rules 4 to 12 that is broken, or what is granted where none is.
pub fn decide<'a>(
    day: Day,
    view: &RequestView,
    registration: &Registration,
    seen: &'a Seen,
) -> Result<Grant<'a>, Rule>
    ensures { Decides day (seen_request view.now) registration.now seen.now result }
{
    let Some(signer) = &seen.signer else {
        return Err(Rule::Authority);
    };
    if has_expired(signer.settled.until, day) {
        return Err(Rule::AuthorityExpired);
    }
    if differs(view, signer) {
        return Err(Rule::Domain);
    }
    if lacks_outer(&registration.first, &view.outer, seen.held.all) {
        return Err(Rule::OuterMissing);
    }
    if lacks_voucher(&view.outer, &seen.voucher) {
        return Err(Rule::OuterUnknown);
    }
    if has_expired_voucher(day, &seen.voucher) {
        return Err(Rule::OuterExpired);
    }
    if is_at_limit(registration.live_limit, seen.held.live) {
        return Err(Rule::LiveLimit);
    }
    let minimum = minimum_days(registration.role);
    let Some(days) = validity(day, registration.days, signer.settled.until, minimum) else {
        return Err(Rule::Short);
    };
    if MOST_ROWS <= seen.count {
        return Err(Rule::Full);
    }
    Ok(Grant { signer, days })
}
