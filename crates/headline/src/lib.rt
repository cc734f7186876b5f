//! What is promised of a run, and the sentences that people quote of it.
//!
//! `specs/Headline` has the one record: each accepted request number has one certificate, kept and answered; each refusal names
//! its first broken rule; each grant is the intersection of its verified chain's rights; and whatever a crash leaves of a chip
//! reads as the trust after a prefix of its acts that holds every acknowledged one. `specs/Sentences` has each of these, and what
//! has to be answered, by itself and under the premises that it needs. Nothing here runs: each law is the contract of a function
//! that does nothing.
#![tactic(auto)]

pub mod laws;
