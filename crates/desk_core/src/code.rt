// Return codes of refused requests.
ghost use Rattle.std.specs.Prelude.{◌≡◌};
ghost use Rattle.desk_core.specs.Codes.{code_of as stands_for};

use eac_messages::Code;
use issue_core::Rule;

/// The return code that stands for a rule of issuing.
pub fn code_of(rule: &Rule) -> Code
    ensures { result ≡ stands_for rule.now }
{
    match rule {
        Rule::Syntax(_) => Code::Syntax,
        Rule::AuthorityExpired | Rule::OuterExpired => Code::Expired,
        Rule::Domain => Code::Domain,
        Rule::Inner => Code::Inner,
        Rule::Outer => Code::Outer,
        Rule::Used
        | Rule::Holder
        | Rule::Authority
        | Rule::OuterMissing
        | Rule::OuterUnknown
        | Rule::LiveLimit
        | Rule::Short
        | Rule::Full => Code::NotAccepted,
    }
}
