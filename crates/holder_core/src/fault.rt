// Why a party's call was broken off.
ghost use Rattle.std.specs.Prelude.{◌≡◌};
ghost use Rattle.holder_core.specs.Faults.{fault_in};

use holder_reference::Reference;
use keeper::KeepRefusal;
use std::error::Error;
use std::fmt;

/// Why a call got no answer.
#[derive(Clone, Copy, Debug, PartialEq, Eq)]
pub enum HolderFault {
    /// A call of the keeper failed. What was to be written may stand nevertheless.
    KeeperFault,
    /// A call of the provider failed. No row has changed.
    ProviderFault,
    /// The provider doesn't hold the key of the row with this reference, which is the one to sign with.
    NoKey(Reference),
    /// Memory is wanting. No row has changed.
    NoMemory,
}

impl fmt::Display for HolderFault {
    fn fmt<W: fmt::Write>(&self, f: &mut fmt::Formatter<W>) -> fmt::Result {
        f.write_str(match self {
            HolderFault::KeeperFault => "the keeper of rows failed",
            HolderFault::ProviderFault => "the provider of signatures failed",
            HolderFault::NoKey(_) => "the provider doesn't hold the key to sign with",
            HolderFault::NoMemory => "out of memory",
        })
    }
}

impl Error for HolderFault {}

/// A reading of the keeper that failed. It is refused for nothing else but want of memory.
pub fn fault_of(refusal: KeepRefusal) -> HolderFault
    ensures { result ≡ fault_in refusal }
{
    match refusal {
        KeepRefusal::Failed => HolderFault::KeeperFault,
        _ => HolderFault::NoMemory,
    }
}
