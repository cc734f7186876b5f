// How long a certificate may be valid.
ghost use Rattle.std.specs.Prelude.{◌≡◌};
ghost use Rattle.policy_limits.specs.Validity as words;

use chat_rights::Role;
use cv_dates::{Day, plus_days};

/// The fewest days that a certificate of this role is valid for (after BSI TR-03139; the numbers are this project's
/// own).
pub fn minimum_days(role: Role) -> u32
    ensures { result ≡ words.minimum_days role }
{
    match role {
        Role::Cvca => 183,
        Role::Domestic | Role::Foreign => 14,
        Role::Terminal => 1,
    }
}

/// The most days that a certificate of this role is valid for (after BSI TR-03139; the numbers are this project's
/// own).
pub fn maximum_days(role: Role) -> u32
    ensures { result ≡ words.maximum_days role }
{
    match role {
        Role::Cvca => 1_096,
        Role::Domestic | Role::Foreign => 92,
        Role::Terminal => 31,
    }
}

/// The day that comes so many days later, and no later than the last one.
fn end_by(day: Day, days: u32, last: Day) -> Day
    ensures { result ≡ words.end_by day days last }
{
    match plus_days(day, days) {
        Some(end) => { if end.is_before(&last) { end } else { last } }
        None => last,
    }
}

/// The effective and the expiration date of a certificate: today, and so many days later, cut to the last day of its
/// authority. `None` exactly where the second date is less than the minimum of days after the first.
pub fn validity(day: Day, days: u32, last: Day, minimum: u32) -> Option<(Day, Day)>
    ensures { result ≡ words.validity day days last minimum }
{
    let end = end_by(day, days, last);
    if (end.number() as u64) < day.number() as u64 + minimum as u64 {
        return None;
    }
    Some((day, end))
}
