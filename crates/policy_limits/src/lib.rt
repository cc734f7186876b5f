//! The setup of a run: its parties, who is registered at which desk, and the limits of what a desk may issue.
//!
//! A [`Setup`] keeps in its type what holds of every setup: how many parties there are, that no two of them and no two
//! registrations are alike, and that days and live limits are within their limits. [`read_setup`] reads it from its
//! lines, or names the first line that breaks a rule; [`take_line`] takes one of them, for a text that has other lines
//! too. The functions of [`laws`] say how a text and its setup fit. [`validity`] is how long a certificate is valid
//! (after BSI TR-03139).
//!
//! What a desk does with a registration, and which certificate is its authority's, is left to the layers above.
#![tactic(auto)]

mod desks;
pub mod laws;
mod limits;
mod party;
mod registration;
mod setup;
mod setup_line;
mod setup_refusal;
mod setup_text;
mod setup_words;
#[cfg(test)]
mod tests;

pub use limits::{maximum_days, minimum_days, validity};
pub use party::{Party, PartyKind, PartyList};
pub use registration::{First, Registration, RegistrationList};
pub use setup::Setup;
pub use setup_line::is_setup_line;
pub use setup_refusal::SetupRefusal;
pub use setup_text::{read_setup, take_line};
