// The events of a script.
ghost use Rattle.std.specs.Prelude.{◌≡◌, List, [], ◌∷◌, ◌++◌, length, slice_get, OnOk, OnErr};
ghost use Rattle.std.specs.Option.{option_copied};

use eac_base::NoMemory;
use eac_net::Event;
use std::alloc::Global;
use std::marker::Model;

/// An event and the number of its line, the first line of the script being line 1.
#[derive(Debug, Drop)]
pub struct EventLine {
    pub line: u64,
    pub event: Event,
}

/// A list of events with their lines.
#[derive(Debug, Drop)]
pub struct EventLines {
    lines: Vec<EventLine>,
}

impl Model for EventLines {
    ghost use Rattle.std.specs.Prelude.{List};
    ghost use Rattle.eac_cli.specs.declared.event.EventLine.{EventLine};

    ghost Value = { List EventLine };

    ghost view = { λ e. e.lines.items };
}

impl EventLines {
    /// No events.
    pub fn new(alloc: Global) -> EventLines
        ensures { result ≡ [] }
    {
        EventLines {
            lines: Vec::new(alloc),
        }
    }

    /// Appends the event, or nothing where memory is wanting.
    pub fn push(&mut self, line: EventLine) -> Result<(), NoMemory>
        ensures pushed { OnOk result (self.new ≡ self.old ++ line ∷ []) }
        ensures kept { OnErr result (self.new ≡ self.old) }
    {
        self.lines.push(line)?;
        Ok(())
    }

    /// The number of events.
    pub fn len(&self) -> usize
        ensures { result ≡ length self.now }
    {
        self.lines.len()
    }

    /// The event at a place from 0, and none from the length on.
    pub fn get(&self, at: usize) -> Option<&EventLine>
        ensures { option_copied result ≡ slice_get self.now at }
    {
        self.lines.get(at)
    }

    /// The events, in their order.
    pub fn as_slice(&self) -> &[EventLine]
        ensures { result.now ≡ self.now }
    {
        self.lines.as_slice()
    }
}
