//! What a desk does with a call, and the reply to it (after BSI TR-03129).
//!
//! A call is a request for a certificate, a question for certificates, or certificates that come in.
//! [`answer_request`], [`answer_list`] or [`answer_both`], and [`answer_receipt`] serve one of these over a keeper and
//! a provider, as issuing and holding do it, and give the reply; [`decline`] is the reply to a call that a party
//! doesn't serve. A reply repeats the call's identifier, and its code, rule and certificates are those that stand for
//! what came of the call: [`code_of`] alone says which code stands for which rule of issuing.
//!
//! A list has the last certificates in the order of adding: [`hand_out`], [`hand_out_both`].
//!
//! Which party serves which call is left to the desks, and how texts come and go to the layers above them.
#![tactic(auto)]

mod answering;
mod code;
pub mod laws;
mod listing;
mod replies;
mod served;
#[cfg(test)]
mod tests;

pub use answering::{Desk, answer_both, answer_list, answer_receipt, answer_request};
pub use code::code_of;
pub use listing::{MOST_LISTED, hand_out, hand_out_both, handed_out, list_last};
pub use replies::{decline, reply_to_list, reply_to_receipt, reply_to_request};
pub use served::{Event1, Served};
