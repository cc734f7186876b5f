// A sink in memory.
ghost use Rattle.std.specs.Prelude.{◌≡◌, ◌⊎◌, ◌-◌, ◌<◌, ◌≤◌, [], min, length, take, Some, None, IfOk, IsErr, ◌↔◌};
ghost use Rattle.std.specs.Io.{WritesAtMost};
ghost use Rattle.std.specs.Io.KnownBytes.{WriteAppends};
ghost use Rattle.eac_base.specs.Causes.{HasCause};
ghost use Rattle.eac_base.specs.Planned.{IsPlanned, after_write};

use crate::plan::counted;
use crate::{FailPlan, Failed, NoMemory, Sink, Stream};
use std::alloc::Global;
use std::marker::Model;

/// Room for bytes that are written, whose writes fail by a plan and where no room is left.
#[derive(Debug, Drop)]
pub struct MemorySink {
    buffer: Vec<u8>,
    used: usize,
    plan: FailPlan,
    calls: u64,
    faults: u64,
}

impl Model for MemorySink {
    ghost use Rattle.std.specs.Prelude.{◌-◌, ◌≤◌, length, take};
    ghost use Rattle.eac_base.specs.Planned.{SinkValue};

    ghost Value = { SinkValue };

    ghost view = { λ s. record {
      taken = take s.used s.buffer.items;
      room = length s.buffer.items - s.used;
      plan = s.plan;
      calls = s.calls;
      faults = s.faults;
    } };

    ghost invariant = { λ s. s.used ≤ length s.buffer.items };
}

impl MemorySink {
    /// Room for `room` bytes, all of which is taken now.
    pub fn new(alloc: Global, room: u64, plan: FailPlan) -> Result<MemorySink, NoMemory>
        ensures { IfOk result (λ s. s ≡ record { taken = []; room = room; plan = plan; calls = 0; faults = 0 }) }
    {
        let Ok(room) = usize::try_from(room) else {
            return Err(NoMemory);
        };
        let buffer = vec![in alloc; 0u8; room]?;
        Ok(MemorySink {
            buffer,
            used: 0,
            plan,
            calls: 0,
            faults: 0,
        })
    }

    /// What was taken.
    pub fn bytes(&self) -> &[u8]
        ensures { result.now ≡ self.now.taken }
    {
        &self.buffer[..self.used]
    }
}

impl Stream for MemorySink {
    ghost left = { λ _. None };

    ghost faults = { λ _. 0 };

    ghost reads = { λ _. None };

    ghost taken = { λ s. Some s.taken };

    ghost lost = { λ s. s.faults };
}

impl Sink for MemorySink {
    fn write(&mut self, from: &[u8]) -> Result<usize, Failed>
        ensures count { WritesAtMost result from.now }
        ensures progress { IfOk result (λ n. 0 < length from.now → 0 < n) }
        ensures bytes { WriteAppends (Some self.old.taken) (Some self.new.taken) result from.now }
        ensures cause { HasCause self.old.faults self.new.faults result }
        // It fails exactly where its plan says, or where no room is left for a nonempty piece.
        ensures plan { IsErr result
            ↔ (IsPlanned self.old.plan self.old.calls ⊎ ((self.old.room ≡ 0) × (0 < length from.now))) }
        ensures most { IfOk result (λ n. n ≡ min (length from.now) self.old.room) }
        ensures after { self.new ≡ after_write self.old from.now result }
    {
        let (fails, calls) = counted(&self.plan, self.calls);
        self.calls = calls;
        let room = self.buffer.len() - self.used;
        if fails || (room == 0 && !from.is_empty()) {
            self.faults = self.faults.saturating_add(1);
            return Err(Failed);
        }
        let count = from.len().min(room);
        let used = self.used;
        self.buffer[used..used + count].copy_from_slice(&from[..count]);
        self.used = used + count;
        Ok(count)
    }
}
