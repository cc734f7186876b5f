// What a setup says of an authority's own certificates.
ghost use Rattle.std.specs.Prelude.{◌≡◌};
ghost use Rattle.cv_dates.specs.Calendar as calendar;
ghost use Rattle.cvca_desk.specs.Terms as words;

use chat_rights::{Rights, Role};
use cv_dates::Day;
use holder_reference::Holder;
use policy_limits::{PartyKind, Setup, minimum_days, validity};
use signature_provider::FormName;

/// What a setup says of an authority's own certificates.
#[derive(Clone, Copy, Debug, PartialEq, Eq)]
pub struct Terms {
    /// Whose they are.
    pub holder: Holder,
    /// The form of the first key.
    pub form: FormName,
    /// What they grant.
    pub rights: Rights,
    /// For how many days they are valid.
    pub days: u32,
}

/// Those of the party of this number, where it is an authority.
pub fn terms_of(setup: &Setup, desk: u32) -> Option<Terms>
    ensures { result ≡ words.terms setup.now desk }
{
    let party = setup.party(desk)?;
    let PartyKind::Cvca { form, rights, days } = party.kind else {
        return None;
    };
    Some(Terms {
        holder: party.holder,
        form,
        rights,
        days,
    })
}

// 2099-12-31, the last day that a date can name.
fn last_day() -> Day
    ensures { result ≡ calendar.last_day }
{
    let Some(last) = Day::from_number(36_524) else {
        unreachable!();
    };
    last
}

/// From this day on, for the days of the terms, and not beyond the last day that there is; none where too few are left.
pub fn dates(terms: &Terms, day: Day) -> Option<(Day, Day)>
    ensures { result ≡ words.dates terms.now day }
{
    validity(day, terms.days, last_day(), minimum_days(Role::Cvca))
}
