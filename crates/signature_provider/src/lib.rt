//! Public keys, as certificates carry them and as a provider of signatures is asked for them.
//!
//! A [`Key`] has an algorithm, a public point and, for an elliptic key that names its curve itself, the domain
//! parameters (BSI TR-03110-3, public keys for RSA and for elliptic curves). Each part is the encoding that stands in
//! the key's data object, so that a key has one text. A [`KeyView`] is the same in borrowed bytes. A [`KeyForm`] is
//! what a new key is made like. Which of these values are keys and forms, `specs/Key.antt` says.
//!
//! A [`SignatureProvider`] makes keys, signs and verifies. Its ghost members are what it says of signatures, which keys
//! it holds, what it signed, and a count of faults; `specs/Provider.antt` says what each call does to them. Two
//! instruments stand in for real providers: [`TableProvider`] tells what it signed, is honest and fails by a plan,
//! [`DigestProvider`] signs by SHA-256 and keeps no table. They are no signature schemes.
//!
//! Nothing here computes on a curve: whether a point lies on its curve is left to whatever stands behind the trait.
#![tactic(auto)]

mod digest;
mod forms;
mod key;
mod key_view;
pub mod laws;
mod made_keys;
mod planned;
mod provider;
mod table;
mod table_signature;
#[cfg(test)]
mod tests;

pub use digest::DigestProvider;
pub use forms::plain_form;
pub use key::{Algorithm, FormName, Key, KeyForm, KeyView};
pub use provider::{SignRefusal, SignatureProvider};
pub use table::TableProvider;
