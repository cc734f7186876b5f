// What came of a certificate for an own key.
ghost use Rattle.std.specs.Prelude.{◌≡◌};
ghost use Rattle.holder_core.specs.RuleNumbers.{take_number};

use cvc_grammar::CvcRefusal;
use eac_base::Octets;
use holder_reference::Reference;
use std::error::Error;
use std::fmt;

/// Why a certificate for an own key is refused, in the order of the tests.
#[derive(Debug, Drop)]
pub enum TakeRule {
    /// The bytes are no certificate.
    Syntax(CvcRefusal),
    /// The party has no own row of its holder reference.
    NotMine,
    /// Its algorithm or its point isn't that of the row's key, or it has a domain.
    KeyDiffers,
    /// The party knows no authority of its authority reference.
    NoIssuer,
    /// The provider says no to its signature.
    Signature,
    /// The row has another certificate, this one.
    Differs(Octets),
}

/// What came of it.
#[derive(Debug, Drop)]
pub enum Taken {
    /// The own row with this reference has the certificate from now on.
    Stored(Reference),
    /// The own row with this reference had it.
    Already(Reference),
    /// The first rule that is broken.
    Refused(TakeRule),
}

impl TakeRule {
    /// The number by which a journal tells the rule, 1 to 6 in the order of the variants.
    pub fn number(&self) -> u8
        ensures { result ≡ take_number self.now }
    {
        match self {
            TakeRule::Syntax(_) => 1,
            TakeRule::NotMine => 2,
            TakeRule::KeyDiffers => 3,
            TakeRule::NoIssuer => 4,
            TakeRule::Signature => 5,
            TakeRule::Differs(_) => 6,
        }
    }
}

impl fmt::Display for TakeRule {
    fn fmt<W: fmt::Write>(&self, f: &mut fmt::Formatter<W>) -> fmt::Result {
        match self {
            TakeRule::Syntax(refusal) => write!(f, "the bytes are no certificate: {refusal}"),
            TakeRule::NotMine => f.write_str("the party has no key of its holder reference"),
            TakeRule::KeyDiffers => f.write_str("its key isn't the one that was asked for"),
            TakeRule::NoIssuer => f.write_str("the party doesn't know its issuer"),
            TakeRule::Signature => f.write_str("its signature isn't its issuer's"),
            TakeRule::Differs(_) => f.write_str("the party has another certificate for this key"),
        }
    }
}

impl Error for TakeRule {}
