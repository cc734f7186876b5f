//! A country verifying certification authority: its own certificates, and its desk.
//!
//! [`found`] makes the first one, signed by its own key, which others trust once it is carried to them by hand.
//! [`new_link`] makes each further one for a new key, signed with the key of the newest before it, so that who trusts
//! the one can trust the next (BSI TR-03110-3, link certificates).
//!
//! Each of the two writes to the keeper once at most, and that is its last outside call: a certificate is signed, then
//! its row is added, then it is answered. What its own rows and the day say decides the first refusal.
//!
//! [`answer`] does with a call what it asks for and gives the reply: a request of a document verifier is issued, and
//! [`list`] gives the certificates that are handed out (after BSI TR-03129).
//!
//! What the calls keep of its rows is said in [`laws`].
//!
//! When an authority is founded and when it links, who is told of it, and what a chip makes of a link is left to the
//! layers above.
#![tactic(auto)]

#[cfg(test)]
mod answer_tests;
mod answering;
mod due;
mod entering;
mod founding;
pub mod laws;
mod linking;
mod listing;
mod making;
mod terms;
#[cfg(test)]
mod tests;

pub use answering::answer;
pub use founding::{Founded, found};
pub use linking::{Linked, new_link};
pub use listing::list;
