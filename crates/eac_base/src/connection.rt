// A connection in memory.
ghost use Rattle.std.specs.Prelude.{◌≡◌, Some, IfOk, IsErr, ◌↔◌, ◌⊎◌, ◌+◌, ◌<◌, ◌≤◌, length, min};
ghost use Rattle.std.specs.Io.{ReadsAtMost, WritesAtMost};
ghost use Rattle.std.specs.Io.KnownBytes.{ReadConsumes, WriteAppends};
ghost use Rattle.eac_base.specs.Causes.{HasCause};
ghost use Rattle.eac_base.specs.Planned.{IsPlanned, after_read, after_write};

use crate::{Failed, MemorySink, MemorySource, Sink, Source, Stream};
use std::marker::Model;

/// A source and a sink in memory, as one connection.
#[derive(Debug, Drop)]
pub struct MemoryConn {
    source: MemorySource,
    sink: MemorySink,
}

impl Model for MemoryConn {
    ghost use Rattle.eac_base.specs.Connections.{ConnValue};

    ghost Value = { ConnValue };

    ghost view = { λ c. record { source = c.source; sink = c.sink } };
}

impl MemoryConn {
    /// A connection of these two.
    pub fn new(source: MemorySource, sink: MemorySink) -> MemoryConn
        ensures { result ≡ record { source = source; sink = sink } }
    {
        MemoryConn { source, sink }
    }

    /// What its sink took.
    pub fn bytes(&self) -> &[u8]
        ensures { result.now ≡ self.now.sink.taken }
    {
        self.sink.bytes()
    }
}

impl Stream for MemoryConn {
    ghost left = { λ c. Some c.source.left };

    ghost faults = { λ c. c.source.faults };

    ghost reads = { λ c. Some c.source.calls };

    ghost taken = { λ c. Some c.sink.taken };

    ghost lost = { λ c. c.sink.faults };
}

impl Source for MemoryConn {
    fn read(&mut self, into: &mut [u8]) -> Result<usize, Failed>
        ensures count { ReadsAtMost result into.new }
        ensures bytes { ReadConsumes (Some self.old.source.left) (Some self.new.source.left) result into.new }
        ensures cause { HasCause self.old.source.faults self.new.source.faults result }
        ensures plan { IsErr result ↔ IsPlanned self.old.source.plan self.old.source.calls }
        ensures most { IfOk result (λ n. n ≤ self.old.source.most) }
        ensures cut { let s = self.old.source in IfOk result (λ n. s.given < s.cut → s.given + n ≤ s.cut) }
        ensures after { self.new ≡ record self.old { source = after_read self.old.source result } }
    {
        self.source.read(into)
    }
}

impl Sink for MemoryConn {
    fn write(&mut self, from: &[u8]) -> Result<usize, Failed>
        ensures count { WritesAtMost result from.now }
        ensures progress { IfOk result (λ n. 0 < length from.now → 0 < n) }
        ensures bytes { WriteAppends (Some self.old.sink.taken) (Some self.new.sink.taken) result from.now }
        ensures cause { HasCause self.old.sink.faults self.new.sink.faults result }
        ensures plan { let s = self.old.sink in
            IsErr result ↔ (IsPlanned s.plan s.calls ⊎ ((s.room ≡ 0) × (0 < length from.now))) }
        ensures most { IfOk result (λ n. n ≡ min (length from.now) self.old.sink.room) }
        ensures after { self.new ≡ record self.old { sink = after_write self.old.sink from.now result } }
    {
        self.sink.write(from)
    }
}
