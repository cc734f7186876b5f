//! References: the names of certificates and of their holders (BSI TR-03110-3, certificate holder reference and
//! certification authority reference).
//!
//! A reference is a text of 8 to 16 bytes: the holder, which is a country of two letters and a mnemonic, and a
//! sequence of five digits or capital letters, which tells a holder's certificates apart. [`Reference`], [`Holder`] and
//! [`Sequence`] are plain copied values. A contract sees each as the list of its bytes, and each is legal by its type:
//! the way in from bytes is a reader, which answers the first condition that they break.
//!
//! Parts and whole, reading again, and numbers and their digits are laws that hold of every legal text: see
//! [`parts_and_whole`], [`read_again`] and [`one_number_each`].
//!
//! Which reference is new, which ones a desk has used, and whose they are, is left to the layers above. No call takes
//! memory.
#![tactic(auto)]

mod holder;
mod laws;
mod parts;
mod reference;
mod refusal;
mod sequence;

pub use holder::{Holder, read_holder};
pub use laws::{one_number_each, parts_and_whole, read_again};
pub use reference::{Reference, join, read_reference};
pub use refusal::RefRefusal;
pub use sequence::{Sequence, first_sequence, next_sequence};

#[cfg(test)]
mod tests;
