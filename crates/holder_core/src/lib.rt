//! Holding: the keys and certificates of a party, and the authorities that it knows.
//!
//! A party asks for certificates of new keys ([`make_request`], BSI TR-03110-3). It stores each certificate that fits a
//! key of its own ([`take_certificate`]) and the certificates of authorities ([`take_ca`]), where an authority that it
//! knows has signed them (after BSI TR-03129). The first authority is carried by hand ([`trust_ca`]). [`receive`] takes
//! certificates as they come in.
//!
//! Each of these but the last writes to the keeper once at most, and that is its last outside call. What the rows say
//! decides the answer: the first rule that is broken, in the order of [`TakeRule`], [`CaRule`] and [`Made`]. A keeper that
//! tells nothing may say to the writing that the row is there, or isn't: then its word decides. What the calls keep of
//! the rows' numbers and of authorities' own rows is said in [`laws`].
//!
//! Who asks for a certificate and when, and what is sent, is left to the layers above.
#![tactic(auto)]

mod adding;
mod ca_rule;
mod composing;
mod fault;
mod key_form;
pub mod laws;
mod listing;
mod looking;
mod made;
mod newest;
mod numbers;
mod received;
mod receiving;
mod requesting;
mod signing;
mod take_rule;
mod taking;
mod taking_ca;
#[cfg(test)]
mod tests;
mod trusting;

pub use adding::{Added, add_row};
pub use ca_rule::{CaRule, TakenCa};
pub use fault::{HolderFault, fault_of};
pub use key_form::{form_of, has_legal_form};
pub use listing::list_rows;
pub use made::Made;
pub use newest::{Wanted, newest_row};
pub use numbers::{MOST_KEYS, numbered};
pub use received::{CertList, Item, ItemList, Received};
pub use receiving::receive;
pub use requesting::make_request;
pub use signing::{make_key, sign};
pub use take_rule::{TakeRule, Taken};
pub use taking::take_certificate;
pub use taking_ca::take_ca;
pub use trusting::trust_ca;
