//! The plain register, which gives each reference once.

pub mod laws;
pub mod serving;
#[cfg(test)]
mod tests;
