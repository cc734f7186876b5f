// Why a line of a script is refused.
ghost use Rattle.std.specs.Prelude.{◌≡◌};
ghost use Rattle.eac_cli.specs.LineRules.{rule_number};

use eac_base::NoMemory;

/// The rule that a line of a script breaks. A line is tested by them in this order, and named by the first one.
#[derive(Clone, Copy, Debug, PartialEq, Eq)]
pub enum LineRule {
    /// The line isn't in the grammar, or a setup line names a party that isn't in an earlier line or can't have that
    /// part.
    Grammar,
    /// HEX says more than 4,096 bytes, or N isn't 1 to 1,000,000; days or a live limit are out of their limits, or it
    /// is the thousand-and-first party.
    Limit,
    /// The holder is a party already, or registered at the desk already.
    Twice,
    /// A setup line comes after an event line.
    TooLate,
    /// An event other than `day` comes before the first `day`.
    TooEarly,
    /// The day is before the day in force.
    DayFalls,
    /// A party of the event isn't in the setup, or can't have that part; or the chip's number isn't below that of the chips.
    Party,
    /// There are 20,000 event lines before it.
    TooMany,
}

impl LineRule {
    /// The number by which a script's fault names the rule.
    pub fn number(self) -> u8
        ensures { result ≡ rule_number self }
    {
        match self {
            LineRule::Grammar => 1,
            LineRule::Limit => 2,
            LineRule::Twice => 3,
            LineRule::TooLate => 4,
            LineRule::TooEarly => 4,
            LineRule::DayFalls => 5,
            LineRule::Party => 6,
            LineRule::TooMany => 7,
        }
    }
}

/// Why a line wasn't read.
#[derive(Clone, Copy, Debug, PartialEq, Eq)]
pub enum LineRefusal {
    /// The line breaks a rule.
    Rule(LineRule),
    /// Memory is wanting.
    NoMemory,
}

impl From<LineRule> for LineRefusal {
    ghost use Rattle.eac_cli.specs.declared.line_rule.LineRefusal.{LineRefusal};

    ghost from_gives = { λ rule refusal. refusal ≡ LineRefusal.Rule rule };

    fn from(rule: LineRule) -> Self {
        LineRefusal::Rule(rule)
    }
}

impl From<NoMemory> for LineRefusal {
    ghost use Rattle.eac_cli.specs.declared.line_rule.LineRefusal.{LineRefusal};

    ghost from_gives = { λ _ refusal. refusal ≡ LineRefusal.NoMemory };

    fn from(_: NoMemory) -> Self {
        LineRefusal::NoMemory
    }
}
