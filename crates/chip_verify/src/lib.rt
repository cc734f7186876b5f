//! A chip's rules: which certificates a chip takes, what they do to what it trusts, and which rights it then grants
//! (BSI TR-03110-3, certificate validation and effective authorization).
//!
//! A [`ChipState`] is the chip's day with one or two trust points, and outlives the power; a [`Session`] is what was
//! verified since the chip was opened. [`check`] compares a certificate with both, by a table of nine refusals of which
//! it knows the first eight; [`judge`] asks the provider of signatures too, and answers what follows; [`import`] stores
//! it. [`Session::granted`] are the rights that stand in the terminal's certificate, in its verifier's and in the trust
//! point at its root. Certificates are read where they lie. No call takes memory: keys lie in the values themselves.
//!
//! The types keep that two points differ and stand in their order, that each is an authority's, and that a session has
//! a terminal only beside a verifier. The functions of `laws` say what holds of whole chains and over time.
//!
//! Where a state is stored, and when it is stable there, is left to the layer above.
#![tactic(auto)]

mod answers;
mod checking;
mod chip_key;
mod chip_state;
mod issuer;
mod judging;
pub mod laws;
mod next;
mod root;
mod same;
mod session;
mod table;
#[cfg(test)]
mod tests;
mod trust_point;

pub use answers::{Checked, ImportRefusal, Imported, Judged};
pub use checking::check;
pub use chip_key::ChipKey;
pub use chip_state::ChipState;
pub use judging::{import, judge};
pub use session::{Session, Verified};
pub use trust_point::TrustPoint;
