//! The ledger: a desk that answers each request number once, whatever comes again.
//!
//! A `Desk` names what two deliveries of one request have in common, the request number, the rules and what is due. Its
//! ledger has one entry for each request that was served: the same request again gets the first answer, whatever comes
//! between, and a new one is judged against the entries that stand. A `Story` is what may happen over any list of
//! deliveries, with faults and want of memory among them, and `Decides` is one delivery of it. `Struck` leaves out the
//! deliveries that come again.
//!
//! All of this is said once, for every desk, in `specs/`, and the laws in `specs/Laws` are proved for every desk in
//! `proofs/`. Nothing here runs. Which desks there are, their rules, and that a call is one delivery of a story, is left
//! to the layers above, which put the laws of their desks into contracts.
#![tactic(auto)]
