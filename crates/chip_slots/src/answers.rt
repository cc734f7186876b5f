// What the calls answer.
use chip_verify::ImportRefusal;
use cvc_grammar::CvcRefusal;
use std::error::Error;
use std::fmt;

/// Why a chip wasn't opened, or didn't take a certificate.
#[derive(Clone, Copy, Debug, PartialEq, Eq)]
pub enum ChipRefusal {
    /// The memory has no state.
    NoChip,
    /// A device call failed, and the disk has counted it.
    DiskFault,
    /// The provider failed, and has counted it.
    ProviderFault,
    /// An earlier import ended in a disk fault. The chip has to be opened anew.
    NeedsOpen,
    /// The bytes are no certificate.
    Syntax(CvcRefusal),
    /// The chip's rules refuse the certificate.
    Refused(ImportRefusal),
    /// The state would change, and its generation is the last one.
    Worn,
}

impl fmt::Display for ChipRefusal {
    fn fmt<W: fmt::Write>(&self, f: &mut fmt::Formatter<W>) -> fmt::Result {
        f.write_str(match self {
            ChipRefusal::NoChip => "the memory has no chip",
            ChipRefusal::DiskFault => "the chip's disk failed",
            ChipRefusal::ProviderFault => "the provider of signatures failed",
            ChipRefusal::NeedsOpen => "the chip has to be opened anew",
            ChipRefusal::Syntax(_) => "the bytes are no certificate",
            ChipRefusal::Refused(_) => "the chip's rules refuse the certificate",
            ChipRefusal::Worn => "the chip's memory is worn",
        })
    }
}

impl Error for ChipRefusal {}

/// Why a chip wasn't made.
#[derive(Clone, Copy, Debug, PartialEq, Eq)]
pub enum MakeRefusal {
    /// The disk's length is no memory's.
    Size,
    /// The certificate isn't an authority's, or its elliptic key has no domain.
    NotRoot,
    /// A device call failed, and the disk has counted it.
    DiskFault,
    /// The memory has a state already.
    Made,
}

impl fmt::Display for MakeRefusal {
    fn fmt<W: fmt::Write>(&self, f: &mut fmt::Formatter<W>) -> fmt::Result {
        f.write_str(match self {
            MakeRefusal::Size => "the disk's length is no memory's",
            MakeRefusal::NotRoot => "the certificate is no root for a chip",
            MakeRefusal::DiskFault => "the chip's disk failed",
            MakeRefusal::Made => "the chip is made already",
        })
    }
}

impl Error for MakeRefusal {}
