// What the calls answer.
ghost use Rattle.std.specs.Prelude.{◌≡◌};
ghost use Rattle.chip_verify.specs.Refusals.{refusal_number};

use crate::{ChipState, Session};
use std::error::Error;
use std::fmt;

/// Why a chip doesn't take a certificate: the first row of the table that applies, in this order.
#[derive(Clone, Copy, Debug, PartialEq, Eq)]
pub enum ImportRefusal {
    /// No trust point has the authority reference, nor has the session's verifier.
    NoIssuer,
    /// It is for another type of terminal than its issuer's. With one type this never comes.
    TypeDiffers,
    /// A trust point doesn't vouch for terminals, and a verifier vouches for terminals alone; or a link is from a
    /// reference to that same reference.
    Role,
    /// A verifier's or terminal's key has another algorithm than its issuer's, or any domain; or a link's elliptic key
    /// has no domain and its issuer's key isn't elliptic.
    Parameters,
    /// It isn't a link, and its issuer has expired at the chip's day.
    IssuerExpired,
    /// It isn't a link, and it has expired at the chip's day.
    Expired,
    /// It is a link from another issuer than the newest trust point.
    Branch,
    /// It is a link whose effective date isn't after the newest trust point's.
    NotLater,
    /// The provider says no to its signature.
    Signature,
}

impl ImportRefusal {
    /// The row's number, from 1.
    pub fn number(&self) -> u8
        ensures { result ≡ refusal_number self.now }
    {
        match self {
            ImportRefusal::NoIssuer => 1,
            ImportRefusal::TypeDiffers => 2,
            ImportRefusal::Role => 3,
            ImportRefusal::Parameters => 4,
            ImportRefusal::IssuerExpired => 5,
            ImportRefusal::Expired => 6,
            ImportRefusal::Branch => 7,
            ImportRefusal::NotLater => 8,
            ImportRefusal::Signature => 9,
        }
    }
}

impl fmt::Display for ImportRefusal {
    fn fmt<W: fmt::Write>(&self, f: &mut fmt::Formatter<W>) -> fmt::Result {
        f.write_str(match self {
            ImportRefusal::NoIssuer => "the chip knows no issuer of this name",
            ImportRefusal::TypeDiffers => "it is for another type of terminal than its issuer",
            ImportRefusal::Role => "its issuer doesn't vouch for this role",
            ImportRefusal::Parameters => "its key doesn't fit its issuer's",
            ImportRefusal::IssuerExpired => "its issuer has expired",
            ImportRefusal::Expired => "it has expired",
            ImportRefusal::Branch => "the link isn't from the newest trust point",
            ImportRefusal::NotLater => "the link isn't later than the newest trust point",
            ImportRefusal::Signature => "its signature is wrong",
        })
    }
}

impl Error for ImportRefusal {}

/// What an imported certificate was.
#[derive(Clone, Copy, Debug, PartialEq, Eq)]
pub enum Imported {
    /// The newest trust point's own, shown again.
    Held,
    /// A link to a new trust point.
    Link,
    /// A verifier's.
    Verifier,
    /// A terminal's.
    Terminal,
}

/// What a certificate is found to be before its signature is looked at.
#[derive(Clone, Copy, Debug, PartialEq, Eq)]
pub enum Checked {
    /// The newest trust point's own, shown again.
    Held,
    Refused(ImportRefusal),
    /// It is taken if its signature is good.
    Ask,
}

/// What a certificate is found to be.
#[derive(Debug, Drop)]
pub enum Judged {
    /// The newest trust point's own, shown again. It changes nothing.
    Held,
    Refused(ImportRefusal),
    /// It is taken, and this follows.
    Next {
        state: ChipState,
        session: Session,
        what: Imported,
    },
}
