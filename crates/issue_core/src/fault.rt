// Why a request got no answer.
ghost use Rattle.std.specs.Prelude.{◌≡◌};

use eac_base::NoMemory;
use holder_reference::Reference;
use keeper::KeepRefusal;
use std::error::Error;
use std::fmt;

/// Why a request got no answer. An entry may stand nevertheless, and then a repeat is answered with it.
#[derive(Clone, Copy, Debug, PartialEq, Eq)]
pub enum IssueFault {
    /// A call of the keeper failed.
    KeeperFault,
    /// A call of the provider failed.
    ProviderFault,
    /// The provider doesn't hold the key of the own row with this reference, which is the one to sign with.
    NoKey(Reference),
    /// Memory is wanting.
    NoMemory,
}

impl fmt::Display for IssueFault {
    fn fmt<W: fmt::Write>(&self, f: &mut fmt::Formatter<W>) -> fmt::Result {
        f.write_str(match self {
            IssueFault::KeeperFault => "the keeper of rows failed",
            IssueFault::ProviderFault => "the provider of signatures failed",
            IssueFault::NoKey(_) => "the provider doesn't hold the key to sign with",
            IssueFault::NoMemory => "out of memory",
        })
    }
}

impl Error for IssueFault {}

impl From<NoMemory> for IssueFault {
    ghost use Rattle.issue_core.specs.declared.fault.IssueFault.{IssueFault};

    ghost from_gives = { λ _ fault. fault ≡ IssueFault.NoMemory };

    fn from(_: NoMemory) -> Self {
        IssueFault::NoMemory
    }
}

// A reading of the keeper is refused for nothing else but a fault and want of memory.
impl From<KeepRefusal> for IssueFault {
    ghost use Rattle.issue_core.specs.Faults.{fault_in};

    ghost from_gives = { λ refusal fault. fault ≡ fault_in refusal };

    fn from(refusal: KeepRefusal) -> Self {
        match refusal {
            KeepRefusal::Failed => IssueFault::KeeperFault,
            KeepRefusal::Full
            | KeepRefusal::Twice(_)
            | KeepRefusal::Absent
            | KeepRefusal::NoMemory => IssueFault::NoMemory,
        }
    }
}
