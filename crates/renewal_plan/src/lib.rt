//! The renewal planner: the fewest renewals that leave no day without a certificate.
//!
//! A [`Need`] says from which day to which a holder needs a certificate, how long a new one is valid, what it has, which
//! authority certificates there are to come, and on which days nobody renews. [`read_need`] reads it from its lines, or
//! names the first line that breaks a rule. [`plan`] gives the renewals, or the first day that no plan covers (validity
//! after BSI TR-03139; the planner is this project's own). The functions of [`laws`] say that there is one plan, and
//! that an uncovered day excludes every plan; those of [`need_laws`] say how a text and its need fit.
//!
//! Whether a desk accepts a planned request for other reasons than these is left to the desks.
#![tactic(auto)]

pub mod laws;
mod lists;
mod need;
pub mod need_laws;
mod need_line;
mod need_refusal;
mod need_text;
mod planning;
#[cfg(test)]
mod tests;

pub use lists::{DayList, RenewalList, SpanList};
pub use need::Need;
pub use need_refusal::NeedRefusal;
pub use need_text::read_need;
pub use planning::{Planned, plan};
