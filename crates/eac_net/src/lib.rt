//! The net: parties that send packets to each other, one event after another.
//!
//! An event is a day, a question to the plain register, an act of a party, a packet that is sent or comes, or an event of a
//! chip. What happened is told by `specs/`: items, one for each event, with what is known of it whatever is told; a state of
//! plain data and the history of its turns, where the rows are told; and each chip's history, where its disk tells. Of the
//! code nothing keeps these: the rows are the keeper's, a chip's memory lies on its disk, and of the rest the [`World`] has
//! the day, the packets, how many imports were made, and which were acknowledged.
//!
//! A family of events has one file of code and one of definitions: what it does to a state whose rows are told, what
//! is known of its answer whatever is told, and when it may be run.
#![tactic(auto)]

mod acting;
mod answer;
mod asking;
mod chips;
mod concluding;
mod counts;
mod days;
mod delivering;
mod event;
pub mod laws;
mod lists;
mod packet;
mod pushing;
mod sending;
mod stepping;
#[cfg(test)]
mod tests;
mod texts;
mod world;

pub use acting::{Asking, apply, found, link, trust};
pub use answer::{Answer, Applied, Fault, Happened, Presented, Replied, Trusted};
pub use asking::ask;
pub use chips::{import, look, make, present};
pub use counts::ImportCounts;
pub use days::begin_day;
pub use delivering::deliver;
pub use event::Event;
pub use packet::{Packet, PacketList};
pub use pushing::push;
pub use sending::{fetch, send};
pub use stepping::step;
pub use texts::answer_text;
pub use world::World;
