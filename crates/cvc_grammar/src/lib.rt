//! Card-verifiable certificates, which a chip reads to know a terminal by, and the requests that ask for them
//! (BSI TR-03110-3, CV certificates and certificate requests).
//!
//! A certificate is a row of data objects that ends with a signature. `view_cert` reads one where it lies and takes no
//! memory, `read_cert` copies what it read. Both read the whole input in one order, and answer the first step that
//! fails. `write_body` writes what a signature is over, `finish_cert` makes the whole of those bytes and the signature,
//! and `write_cert` does both. `view_request` and `read_request` do so for requests, whose view also shows what each of
//! their signatures is over; they are written by three calls, one for each thing that is signed or sent.
//!
//! A certificate and a request have one text, and a text is of one of them; what was written is read, and what was read
//! is written: the functions of `laws` say so.
//!
//! Whether a signature is good, whether a date has passed and who may certify whom is left to the layers above.
#![tactic(auto)]

mod body_fields;
mod certificate;
mod extensions;
mod key;
pub mod laws;
mod object_writing;
mod parts;
mod refusal;
mod request;
mod signed;
#[cfg(test)]
mod tests;

pub use certificate::copy::read_cert;
pub use certificate::view::view_cert;
pub use certificate::writing::{finish_cert, write_body, write_cert};
pub use certificate::{Cert, CertBody, CertView};
pub use refusal::{CvcRefusal, ObjectFault, ReadCvc};
pub use request::copy::read_request;
pub use request::view::view_request;
pub use request::writing::{
    finish_authenticated, finish_request, push_signer, write_request, write_request_body,
    write_signed_part,
};
pub use request::{Outer, OuterView, Request, RequestBody, RequestView};
