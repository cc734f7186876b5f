// Why a request is refused.
ghost use Rattle.std.specs.Prelude.{◌≡◌};
ghost use Rattle.issue_core.specs.RuleNumbers.{number_of};

use cvc_grammar::CvcRefusal;
use std::fmt;

/// The rules of issuing, in the order in which they are tested.
#[derive(Clone, Copy, Debug, PartialEq, Eq)]
pub enum Rule {
    /// The bytes are no request.
    Syntax(CvcRefusal),
    /// The request number stands in the ledger with another request.
    Used,
    /// The holder isn't registered at the desk, or is suspended.
    Holder,
    /// The desk has no settled certificate of its own under the authority reference that the request names; or none at
    /// all, where the request names none.
    Authority,
    /// The certificate to sign under has expired.
    AuthorityExpired,
    /// The request's algorithm or domain differs from that of the key to sign with.
    Domain,
    /// The outer signature is missing: the holder has certificates here, or has to show its home authority's.
    OuterMissing,
    /// The outer signature's reference is neither that of a certificate of this holder here, nor its home authority's.
    OuterUnknown,
    /// The certificate that the outer signature names has expired.
    OuterExpired,
    /// The holder has as many certificates here that haven't expired as it may have, or more.
    LiveLimit,
    /// The certificate would be valid for fewer days than its role asks for.
    Short,
    /// The ledger has 100,000 entries.
    Full,
    /// The provider says no to the inner signature.
    Inner,
    /// The provider says no to the outer signature.
    Outer,
}

impl Rule {
    /// The number by which a journal tells the rule, 1 to 14 in the order of the variants.
    pub fn number(&self) -> u8
        ensures { result ≡ number_of self.now }
    {
        match self {
            Rule::Syntax(_) => 1,
            Rule::Used => 2,
            Rule::Holder => 3,
            Rule::Authority => 4,
            Rule::AuthorityExpired => 5,
            Rule::Domain => 6,
            Rule::OuterMissing => 7,
            Rule::OuterUnknown => 8,
            Rule::OuterExpired => 9,
            Rule::LiveLimit => 10,
            Rule::Short => 11,
            Rule::Full => 12,
            Rule::Inner => 13,
            Rule::Outer => 14,
        }
    }
}

impl fmt::Display for Rule {
    fn fmt<W: fmt::Write>(&self, f: &mut fmt::Formatter<W>) -> fmt::Result {
        f.write_str(match self {
            Rule::Syntax(refusal) => return write!(f, "the bytes are no request: {refusal}"),
            Rule::Used => "the request number stands in the ledger with another request",
            Rule::Holder => "the holder isn't registered here, or is suspended",
            Rule::Authority => "no certificate of the desk's own is there to sign under",
            Rule::AuthorityExpired => "the certificate to sign under has expired",
            Rule::Domain => "the algorithm or the domain isn't that of the key to sign with",
            Rule::OuterMissing => "the outer signature is missing",
            Rule::OuterUnknown => "no certificate is known under the outer signature's reference",
            Rule::OuterExpired => "the certificate that the outer signature names has expired",
            Rule::LiveLimit => "the holder has as many live certificates as it may have",
            Rule::Short => "the certificate would be valid for too few days",
            Rule::Full => "the ledger is full",
            Rule::Inner => "the inner signature isn't good",
            Rule::Outer => "the outer signature isn't good",
        })
    }
}
