//! A document verifier's desk (after BSI TR-03129).
//!
//! A verifier certifies the inspection systems that are registered at it, hands out the certificates that lead up to
//! country authorities, and takes those that come in. [`answer`] does with a call what it asks for and gives the reply;
//! [`list`] gives the certificates that are handed out.
//!
//! When a verifier asks for certificates itself, and how texts come and go, is left to the layers above.
#![tactic(auto)]

mod answering;
mod listing;
#[cfg(test)]
mod tests;

pub use answering::answer;
pub use listing::list;
