//! The rows of the desks in one table of a database.
//!
//! [`SqliteKeeper`] is a keeper over a connection, with one table and six fixed statements. Each statement stands in a
//! function of its own with one call of the database, whose clause says what it means on the entries of a store that is
//! told; values are bound and never put into the text. The keeper tells its rows while the store is clean and open,
//! where it began with no rows. Whatever the database refuses but for want of memory, and whatever it holds in another
//! form, is a fault, and is counted.
//!
//! A row's part is stored as data objects in a fixed order for each table. `write_row_body` writes them and
//! `read_row_body` reads them: a part has one text, what was written is read, and bytes that aren't of the form are no
//! part.
#![tactic(auto)]

mod body;
mod changing;
mod reading;
mod statements;
mod store;
#[cfg(test)]
mod tests;
mod views;
mod writing;

pub use body::{read_row_body, write_row_body};
pub use store::SqliteKeeper;
