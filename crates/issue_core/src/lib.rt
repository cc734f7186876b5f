//! Issuing: what a desk answers to a request, once for each request number.
//!
//! A desk's ledger has one entry for each request that was served. The same request again gets the first answer,
//! whatever comes between; a new one is judged against the entries that stand, and the first rule that is broken
//! refuses it. `specs/` says this once for every kind of desk: a `Desk` names what two deliveries of one request have
//! in common, the request number, the rules and what is due, and a `Story` is what may happen over any list of
//! deliveries, with faults and want of memory among them.
//!
//! The plain register is the first such desk: a reference with bytes is its request, and a day is what it gives.
//! [`register`] serves one line of it over a keeper, and promises that the call was one delivery of the story.
//!
//! An issuing desk is the second, a country authority or a document verifier: a request's bytes are its request, and a
//! certificate is what it gives (after BSI TR-03129 and TR-03139). [`issue`] serves one request over a keeper and a
//! provider of signatures, by the first of the fourteen rules of [`Rule`], and promises that the call was one delivery
//! of the story, with the provider's verdicts at the call.
//!
//! Each desk has a folder of its own. The functions of its `laws` have no body: their contracts are the laws of the
//! desk's stories.
//!
//! Scripts, journals and messages are left to the layers above.
#![tactic(auto)]

mod fault;
mod issuing;
mod registering;
mod rule;

pub use fault::IssueFault;
pub use issuing::laws::{
    a_repeat_has_its_certificate, calls_go_on, issued_answers_are_due, keys_are_needed, lists_owe,
    one_certificate_for_a_number, repeats_issue_nothing, struck_requests_decide,
};
pub use issuing::serving::{Answer, issue};
pub use registering::laws::{
    a_repeat_is_kept, a_story_goes_on, answers_are_due, one_entry_for_a_reference,
    repeats_change_nothing, repeats_decide_nothing, rows_are_the_ledger,
};
pub use registering::serving::{RegisterAnswer, register};
pub use rule::Rule;
