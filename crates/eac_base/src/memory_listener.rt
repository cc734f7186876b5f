// A listener in memory.
ghost use Rattle.std.specs.Prelude.{◌≡◌, ◌≤◌, ◌+◌, [], ◌∷◌, ◌++◌, map, Some, true, OnOk, OnErr, IfOk, IsErr, ◌⊎◌, ◌↔◌};
ghost use Rattle.eac_base.specs.Causes.{HasCause};
ghost use Rattle.eac_base.specs.Connections.{input_of, finished_of, is_fresh, after_accept, after_finish};
ghost use Rattle.eac_base.specs.Planned.{IsPlanned};

use crate::plan::counted;
use crate::{FailPlan, Failed, Listener, MemoryConn, NoMemory};
use std::alloc::Global;
use std::collections::VecDeque;
use std::marker::Model;

/// Connections in memory, one after another, whose accepting fails by a plan and where none is left.
#[derive(Debug, Drop)]
pub struct MemoryListener {
    coming: VecDeque<MemoryConn>,
    finished: Vec<MemoryConn>,
    out: usize,
    plan: FailPlan,
    calls: u64,
    faults: u64,
}

impl Model for MemoryListener {
    ghost use Rattle.std.specs.Prelude.{◌≡◌, ◌≤◌, ◌+◌, true};
    ghost use Rattle.std.specs.List.{list_all};
    ghost use Rattle.std.specs.Vec.{vec_len, vec_capacity};
    ghost use Rattle.std.specs.VecDeque.{deque_len};
    ghost use Rattle.eac_base.specs.Connections.{ListenerValue, is_fresh};

    ghost Value = { ListenerValue };

    ghost view = { λ l. record {
      coming = l.coming.items;
      finished = l.finished.items;
      out = l.out;
      plan = l.plan;
      calls = l.calls;
      faults = l.faults;
    } };

    // Each connection that is out or to come has its room among the finished ones.
    ghost invariant = { λ l. (vec_len l.finished + l.out + deque_len l.coming ≤ vec_capacity l.finished)
        × (list_all is_fresh l.coming.items ≡ true) };
}

impl MemoryListener {
    /// No connections.
    pub fn new(alloc: Global, plan: FailPlan) -> MemoryListener
        ensures { result ≡ record { coming = []; finished = []; out = 0; plan = plan; calls = 0; faults = 0 } }
    {
        MemoryListener {
            coming: VecDeque::new(alloc),
            finished: Vec::new(alloc),
            out: 0,
            plan,
            calls: 0,
            faults: 0,
        }
    }

    /// Adds a connection to come that wasn't used before, and takes the room for its end; nothing where memory is
    /// wanting.
    pub fn push(&mut self, conn: MemoryConn) -> Result<(), NoMemory>
        requires { is_fresh conn ≡ true }
        ensures pushed { OnOk result (self.new ≡ record self.old { coming = self.old.coming ++ conn ∷ [] }) }
        ensures kept { OnErr result (self.new ≡ self.old) }
    {
        let room = self.out + self.coming.len() + 1;
        self.finished.reserve(room)?;
        self.coming.push_back(conn)?;
        Ok(())
    }

    /// The finished connections.
    pub fn finished(&self) -> &[MemoryConn]
        ensures { result.now ≡ self.now.finished }
    {
        self.finished.as_slice()
    }
}

impl Listener for MemoryListener {
    type Conn = MemoryConn;

    ghost coming = { λ l. Some (map input_of l.coming) };

    ghost finished = { λ l. Some (map finished_of l.finished) };

    ghost out = { λ l. l.out };

    ghost faults = { λ l. l.faults };

    fn accept(&mut self) -> Result<MemoryConn, Failed>
        ensures first { IfOk result (λ c. self.old.coming ≡ c ∷ self.new.coming) }
        ensures fresh { IfOk result (λ c. is_fresh c ≡ true) }
        ensures cause { HasCause self.old.faults self.new.faults result }
        // It fails exactly where its plan says, or where none is left.
        ensures plan { IsErr result ↔ (IsPlanned self.old.plan self.old.calls ⊎ (self.old.coming ≡ [])) }
        ensures after { self.new ≡ after_accept self.old result }
    {
        let (fails, calls) = counted(&self.plan, self.calls);
        self.calls = calls;
        if !fails && let Some(conn) = self.coming.pop_front() {
            self.out += 1;
            return Ok(conn);
        }
        self.faults = self.faults.saturating_add(1);
        Err(Failed)
    }

    fn finish(&mut self, conn: MemoryConn)
        requires { 1 ≤ self.old.out }
        ensures after { self.new ≡ after_finish self.old conn }
    {
        self.out -= 1;
        match self.finished.push(conn) {
            Ok(()) => {}
            Err(_) => unreachable!(),
        }
    }
}
