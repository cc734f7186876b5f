//! An inspection system's desk: the certificates that it takes, and the chain of them that a terminal shows to a chip.
//!
//! A terminal takes certificates that are sent to it and serves no other call: [`answer`] gives the reply.
//!
//! A chain leads from one of the terminal's own certificates over its document verifier's and over link certificates
//! up to one that a trust point of the chip has issued (BSI TR-03110-3, certificate chains). [`chain_for`] builds the
//! chain that is due from a party's own rows and its rows of authorities, [`find_chain`] from those that a keeper has:
//! it is that of the newest own certificate that has one. There is none exactly where no own certificate has one.
//!
//! Of several rows with one reference the first is meant. Whether a chip takes the certificates, and whether they are
//! valid on its day, is the chip's to say. No signature is looked at: what is in the rows was verified when it came.
#![tactic(auto)]

#[cfg(test)]
mod answer_tests;
mod answering;
mod chain;
mod climbing;
pub mod laws;
mod met;
mod newest;
mod places;
mod search;
#[cfg(test)]
mod tests;

pub use answering::answer;
pub use chain::{Chain, ChainRefusal, chain_for};
pub use search::{SearchRefusal, find_chain};
