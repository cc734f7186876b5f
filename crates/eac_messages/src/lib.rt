//! Calls between the parties and their replies, as JSON texts (after BSI TR-03129).
//!
//! A call asks a party for a certificate, sends it certificates or asks for its authority certificates. A reply has a
//! return code, the rule of a refused request, and certificates. A body is one JSON object whose members these are;
//! other members in it are passed over. Certificates and requests stand in it as standard base64 with padding.
//!
//! [`read_message`] and [`read_reply`] judge the whole body, as `serde_json` reads it, and answer the value or the
//! first test that fails: the object, then each member in a fixed order, then the base64. [`write_message`] and
//! [`write_reply`] give the one compact text, and the functions of [`laws`] say how the two sides fit.
//!
//! What a certificate's bytes are, which call a party serves and what it replies is left to the layers above.
#![tactic(auto)]

mod base64_texts;
mod body;
mod code;
pub mod laws;
mod member_writing;
mod message;
mod message_reading;
mod message_writing;
mod refusal;
mod reply;
mod reply_reading;
mod reply_writing;
#[cfg(test)]
mod tests;

pub use code::Code;
pub use message::Message;
pub use message_reading::read_message;
pub use message_writing::write_message;
pub use refusal::{Member, MessageRefusal};
pub use reply::Reply;
pub use reply_reading::read_reply;
pub use reply_writing::write_reply;
