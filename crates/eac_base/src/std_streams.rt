// Readers and writers of std, the trusted edge.
ghost use Rattle.std.specs.Prelude.{◌≡◌, None};
ghost use Rattle.std.specs.Io.{ReadsAtMost, WritesAtMost};
ghost use Rattle.std.specs.Io.KnownBytes.{ReadConsumes, WriteAppends};

use crate::{Failed, Sink, Source, Stream};
use std::io;
use std::io::{ErrorKind, Read, Write};

// How often a call that a signal interrupts is tried: as often as std's own loops try it.
const TRIES: u64 = u64::MAX;

// One read, tried again where a signal interrupts it.
pub(crate) fn read_once<R: Read>(reader: &mut R, into: &mut [u8]) -> io::Result<usize>
    ensures count { ReadsAtMost result into.new }
    ensures bytes { ReadConsumes (R.remaining reader.old) (R.remaining reader.new) result into.new }
{
    'tries: for _ in 0..TRIES {
        match reader.read(into) {
            Err(fault) if fault.kind() == ErrorKind::Interrupted => {}
            ended => return ended,
        }
    }
    Err(io::Error::from(ErrorKind::Interrupted))
}

// One write, tried again where a signal interrupts it.
pub(crate) fn write_once<W: Write>(writer: &mut W, from: &[u8]) -> io::Result<usize>
    ensures count { WritesAtMost result from.now }
    ensures bytes { WriteAppends (W.contents writer.old) (W.contents writer.new) result from.now }
{
    'tries: for _ in 0..TRIES {
        match writer.write(from) {
            Err(fault) if fault.kind() == ErrorKind::Interrupted => {}
            ended => return ended,
        }
    }
    Err(io::Error::from(ErrorKind::Interrupted))
}

/// A reader of std. It counts its faults, and tells what it holds where the reader does. A read that a signal
/// interrupts is tried again.
#[derive(Drop)]
pub struct StdSource<R: Read> {
    inner: R,
    faults: u64,
}

impl<R: Read> StdSource<R> {
    /// No read of it has failed yet.
    pub fn new(inner: R) -> StdSource<R>
        ensures left { R.remaining result.inner ≡ R.remaining inner }
        ensures faults { result.faults ≡ 0 }
    {
        StdSource { inner, faults: 0 }
    }
}

impl<R: Read> Stream for StdSource<R> {
    ghost left = { λ s. R.remaining s.inner };

    ghost faults = { λ s. s.faults };

    ghost reads = { λ _. None };

    ghost taken = { λ _. None };

    ghost lost = { λ _. 0 };
}

impl<R: Read> Source for StdSource<R> {
    fn read(&mut self, into: &mut [u8]) -> Result<usize, Failed> {
        match read_once(&mut self.inner, into) {
            Ok(count) => Ok(count),
            Err(_) => {
                self.faults = self.faults.saturating_add(1);
                Err(Failed)
            }
        }
    }
}

/// A writer of std. It counts its faults; that it takes nothing of a nonempty piece is one of them. A write that a
/// signal interrupts is tried again.
#[derive(Drop)]
pub struct StdSink<W: Write> {
    inner: W,
    faults: u64,
}

impl<W: Write> StdSink<W> {
    /// No write to it has failed yet.
    pub fn new(inner: W) -> StdSink<W>
        ensures taken { W.contents result.inner ≡ W.contents inner }
        ensures faults { result.faults ≡ 0 }
    {
        StdSink { inner, faults: 0 }
    }
}

impl<W: Write> Stream for StdSink<W> {
    ghost left = { λ _. None };

    ghost faults = { λ _. 0 };

    ghost reads = { λ _. None };

    ghost taken = { λ s. W.contents s.inner };

    ghost lost = { λ s. s.faults };
}

impl<W: Write> Sink for StdSink<W> {
    fn write(&mut self, from: &[u8]) -> Result<usize, Failed> {
        match write_once(&mut self.inner, from) {
            Ok(count) if 0 < count || from.is_empty() => Ok(count),
            _ => {
                self.faults = self.faults.saturating_add(1);
                Err(Failed)
            }
        }
    }
}
