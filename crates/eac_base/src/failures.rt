// How a call ends that doesn't do what it is for.
use std::alloc::{AllocError, AllocFailed};
use std::error::Error;
use std::fmt;

/// A call of the outside failed. The object that was called has counted it.
#[derive(Clone, Copy, Debug, PartialEq, Eq)]
pub struct Failed;

impl fmt::Display for Failed {
    fn fmt<W: fmt::Write>(&self, f: &mut fmt::Formatter<W>) -> fmt::Result {
        f.write_str("a call of the outside failed")
    }
}

impl Error for Failed {}

/// Memory is wanting.
#[derive(Clone, Copy, Debug, PartialEq, Eq)]
pub struct NoMemory;

impl fmt::Display for NoMemory {
    fn fmt<W: fmt::Write>(&self, f: &mut fmt::Formatter<W>) -> fmt::Result {
        f.write_str("memory is wanting")
    }
}

impl Error for NoMemory {}

impl From<AllocError> for NoMemory {
    fn from(_: AllocError) -> Self {
        NoMemory
    }
}

impl<T: Drop> From<AllocFailed<T>> for NoMemory {
    fn from(_: AllocFailed<T>) -> Self {
        NoMemory
    }
}

/// Why a source was not read whole.
#[derive(Clone, Copy, Debug, PartialEq, Eq)]
pub enum ReadRefusal {
    /// A read failed.
    ReadFault,
    /// The source gave more bytes than the limit.
    TooLong,
    /// Memory is wanting.
    NoMemory,
}

impl fmt::Display for ReadRefusal {
    fn fmt<W: fmt::Write>(&self, f: &mut fmt::Formatter<W>) -> fmt::Result {
        f.write_str(match self {
            ReadRefusal::ReadFault => "a read failed",
            ReadRefusal::TooLong => "there are more bytes than the limit",
            ReadRefusal::NoMemory => "memory is wanting",
        })
    }
}

impl Error for ReadRefusal {}
