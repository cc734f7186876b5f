// What came of a certificate of an authority.
ghost use Rattle.std.specs.Prelude.{◌≡◌};
ghost use Rattle.holder_core.specs.RuleNumbers.{ca_number};

use cvc_grammar::CvcRefusal;
use eac_base::Octets;
use holder_reference::Reference;
use std::error::Error;
use std::fmt;

/// Why an authority's certificate is refused, in the order of the tests.
#[derive(Debug, Drop)]
pub enum CaRule {
    /// The bytes are no certificate.
    Syntax(CvcRefusal),
    /// It is a terminal's.
    Role,
    /// The party knows no country authority of its authority reference.
    NoIssuer,
    /// Its key doesn't fit its issuer's.
    Parameters,
    /// The provider says no to its signature.
    Signature,
    /// Another certificate stands under its reference, this one.
    Differs(Octets),
    /// The party has no room for it.
    Full,
}

/// What came of it.
#[derive(Debug, Drop)]
pub enum TakenCa {
    /// It is kept under this reference from now on.
    Stored(Reference),
    /// It was kept under this reference.
    Held(Reference),
    /// The first rule that is broken.
    Refused(CaRule),
}

impl CaRule {
    /// The number by which a journal tells the rule, 1 to 7 in the order of the variants.
    pub fn number(&self) -> u8
        ensures { result ≡ ca_number self.now }
    {
        match self {
            CaRule::Syntax(_) => 1,
            CaRule::Role => 2,
            CaRule::NoIssuer => 3,
            CaRule::Parameters => 4,
            CaRule::Signature => 5,
            CaRule::Differs(_) => 6,
            CaRule::Full => 7,
        }
    }
}

impl fmt::Display for CaRule {
    fn fmt<W: fmt::Write>(&self, f: &mut fmt::Formatter<W>) -> fmt::Result {
        match self {
            CaRule::Syntax(refusal) => write!(f, "the bytes are no certificate: {refusal}"),
            CaRule::Role => f.write_str("it is a terminal's"),
            CaRule::NoIssuer => f.write_str("the party doesn't know its issuer"),
            CaRule::Parameters => f.write_str("its key doesn't fit its issuer's"),
            CaRule::Signature => f.write_str("its signature isn't its issuer's"),
            CaRule::Differs(_) => f.write_str(
                "the party keeps another certificate under its reference",
            ),
            CaRule::Full => f.write_str("the party has no room for a further authority"),
        }
    }
}

impl Error for CaRule {}
