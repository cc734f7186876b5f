// Why a text is no setup.
use eac_base::NoMemory;
use std::error::Error;
use std::fmt;

/// Why a text wasn't read as a setup: the first line that breaks a rule, the first line of the text being line 1, with
/// the first rule in this order that it breaks.
#[derive(Clone, Copy, Debug, PartialEq, Eq)]
pub enum SetupRefusal {
    /// The line isn't in the grammar of setup lines, or names a party that isn't in an earlier line or can't have that
    /// part.
    Form { line: u64 },
    /// Days or a live limit are out of their limits, or it is the thousand-and-first party.
    Limit { line: u64 },
    /// The holder is a party already, or registered at the desk already.
    Twice { line: u64 },
    /// Memory is wanting.
    NoMemory,
}

impl fmt::Display for SetupRefusal {
    fn fmt<W: fmt::Write>(&self, f: &mut fmt::Formatter<W>) -> fmt::Result {
        match self {
            SetupRefusal::Form { line } => write!(
                f,
                "line {line} isn't in the grammar of setup lines"
            ),
            SetupRefusal::Limit { line } => write!(f, "line {line} is beyond a limit"),
            SetupRefusal::Twice { line } => write!(
                f,
                "line {line} says again what an earlier line says"
            ),
            SetupRefusal::NoMemory => f.write_str("out of memory"),
        }
    }
}

impl Error for SetupRefusal {}

impl From<NoMemory> for SetupRefusal {
    ghost use Rattle.std.specs.Prelude.{◌≡◌};
    ghost use Rattle.policy_limits.specs.declared.setup_refusal.SetupRefusal.{SetupRefusal};

    ghost from_gives = { λ _ refusal. refusal ≡ SetupRefusal.NoMemory };

    fn from(_: NoMemory) -> Self {
        SetupRefusal::NoMemory
    }
}
