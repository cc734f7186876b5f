//! What every layer stands on: lists of bytes, and the outside as it is asked.
//!
//! The outside (a stream that is read or written, a listener that gives connections) is a trait that is handed in. Each
//! trait has ghost members for what an object holds or took, where it tells it, and a count of faults that never falls.
//! A call answers [`Failed`] only where that count rose in the call or stands at its last value, and any other answer
//! leaves it, so no layer above can invent a fault or hide one.
//!
//! A [`Stream`] is what is known of an object that is read, written or both: [`Source`] reads it, [`Sink`] writes it,
//! and each leaves what the other is about. A [`Listener`] gives connections one after another and takes them back.
//!
//! [`MemorySource`], [`MemorySink`], [`MemoryConn`] and [`MemoryListener`] hold their content and fail by a plan.
//! [`StdSource`], [`StdSink`] and [`TcpListening`] adapt std. [`read_all`] and [`write_all`] are the only loops over
//! calls of the outside.
//!
//! Whatever allocates may answer [`NoMemory`]: no clause ties it to a refused growth. Nothing here knows of scripts,
//! certificates or desks.
#![tactic(auto)]

mod acks;
mod byte_lists;
mod connection;
mod failures;
mod listener;
mod memory_listener;
mod memory_sink;
mod memory_source;
mod octets;
mod plan;
mod std_streams;
mod streams;
mod tcp;
#[cfg(test)]
mod tests;
mod whole;

pub use acks::{Ack, Acks};
pub use byte_lists::{ByteLists, Words};
pub use connection::MemoryConn;
pub use failures::{Failed, NoMemory, ReadRefusal};
pub use listener::Listener;
pub use memory_listener::MemoryListener;
pub use memory_sink::MemorySink;
pub use memory_source::MemorySource;
pub use octets::{Octets, are_bytes, is_same};
pub use plan::{FailPlan, counted};
pub use std_streams::{StdSink, StdSource};
pub use streams::{Sink, Source, Stream};
pub use tcp::{TcpConn, TcpListening};
pub use whole::{read_all, write_all};
