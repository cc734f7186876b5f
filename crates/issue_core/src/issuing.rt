//! An issuing desk: a country authority or a document verifier.
//!
//! `serving` has the steps of a call in their order. A request is read where it lies; `looking` asks the keeper for
//! what the rules look at, `deciding` has the rules 4 to 12, `verdicts` the rules 13 and 14, and `making` makes the
//! certificate that is due.

mod asked_key;
mod deciding;
pub mod laws;
mod looking;
mod making;
mod seen;
pub mod serving;
mod signer_row;
#[cfg(test)]
mod tests;
mod verdicts;
mod voucher_row;
