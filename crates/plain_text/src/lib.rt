//! Plain text: the lines of a text with their numbers, the words of a line, and numbers and bytes written as digits.
//!
//! A text is bytes. [`lines`] gives its lines one after the other, each with its number, and passes over those that
//! say nothing. [`words`] cuts a line at its spaces. [`decimal`] reads and writes numbers without leading zeros, and
//! [`hexadecimal`] reads bytes as pairs of digits of either case.
//!
//! Each reader answers what the whole of its bytes says, or `None` exactly where they say nothing of that kind. What
//! a line means, and which numbers are too great for it, is left to the layers above.
#![tactic(auto)]

pub mod decimal;
pub mod hexadecimal;
pub mod lines;
#[cfg(test)]
mod tests;
pub mod words;
