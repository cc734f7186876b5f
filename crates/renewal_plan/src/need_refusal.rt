// Why a text is no need.
ghost use Rattle.std.specs.Prelude.{◌≡◌};
ghost use Rattle.renewal_plan.specs.NeedText as words;

use eac_base::NoMemory;
use std::error::Error;
use std::fmt;

/// Why a text wasn't read as a need.
#[derive(Clone, Copy, Debug, PartialEq, Eq)]
pub enum NeedRefusal {
    /// The first line that breaks a rule, the first line of the text being line 1, with the least rule that it breaks:
    /// 1 where it isn't in the grammar of what may stand there, 2 where it is beyond a limit. A text that ends before
    /// its line `live` breaks rule 1 in the line behind its last one.
    Fault { line: u64, rule: u8 },
    /// Memory is wanting.
    NoMemory,
}

/// The line isn't in the grammar of what may stand there.
pub fn form(line: u64) -> NeedRefusal
    ensures { result ≡ words.form line }
{
    NeedRefusal::Fault { line, rule: 1 }
}

/// The line is beyond a limit.
pub fn limit(line: u64) -> NeedRefusal
    ensures { result ≡ words.limit line }
{
    NeedRefusal::Fault { line, rule: 2 }
}

impl fmt::Display for NeedRefusal {
    fn fmt<W: fmt::Write>(&self, f: &mut fmt::Formatter<W>) -> fmt::Result {
        match self {
            NeedRefusal::Fault { line, rule } => write!(f, "line {line} breaks rule {rule}"),
            NeedRefusal::NoMemory => f.write_str("out of memory"),
        }
    }
}

impl Error for NeedRefusal {}

impl From<NoMemory> for NeedRefusal {
    ghost use Rattle.std.specs.Prelude.{◌≡◌};
    ghost use Rattle.renewal_plan.specs.declared.need_refusal.NeedRefusal.{NeedRefusal};

    ghost from_gives = { λ _ refusal. refusal ≡ NeedRefusal.NoMemory };

    fn from(_: NoMemory) -> Self {
        NeedRefusal::NoMemory
    }
}
