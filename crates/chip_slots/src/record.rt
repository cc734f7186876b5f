// The record of a slot.
pub mod reading;
pub mod writing;
