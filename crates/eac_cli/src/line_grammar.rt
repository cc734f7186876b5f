// One line of a script by itself. A family of events has its readers in a file of their own.
ghost use Rattle.std.specs.Option.{option_copied};
ghost use Rattle.eac_base.specs.Answers.{Answers};
ghost use Rattle.plain_text.specs.Lines.{pieces_left};
ghost use Rattle.eac_cli.specs.LineGrammar.{event_of, said_as};
ghost use Rattle.eac_cli.specs.LineRules.{rule_of};

mod acting;
mod asking;
mod chips;
mod days;
mod packets;
mod words;

use crate::event_kind::{EventKind, kind_of};
use crate::line_rule::{LineRefusal, LineRule};
use crate::named_event::NamedEvent;
use acting::{read_apply, read_found, read_link, read_trust};
use asking::read_ask;
use chips::{read_import, read_look, read_make, read_present};
use days::read_day;
use packets::{read_deliver, read_fetch, read_push, read_send};
use plain_text::words::{are_words, cut};
use std::alloc::Global;

/// Reads what stands behind the first word.
fn read_as(
    alloc: Global,
    kind: EventKind,
    rest: Option<&[u8]>,
    chips: u32,
) -> Result<NamedEvent, LineRefusal>
    ensures { Answers (λ event. event) rule_of result (said_as chips kind (pieces_left (option_copied rest.entry))) }
{
    match kind {
        EventKind::Day => Ok(read_day(rest)?),
        EventKind::Ask => read_ask(alloc, rest),
        EventKind::Found => Ok(read_found(rest)?),
        EventKind::Link => Ok(read_link(rest)?),
        EventKind::Trust => Ok(read_trust(rest)?),
        EventKind::Apply => Ok(read_apply(rest)?),
        EventKind::Fetch => Ok(read_fetch(rest)?),
        EventKind::Push => Ok(read_push(rest)?),
        EventKind::Send => read_send(alloc, rest),
        EventKind::Deliver => Ok(read_deliver(rest)?),
        EventKind::Make => Ok(read_make(rest, chips)?),
        EventKind::Present => Ok(read_present(rest, chips)?),
        EventKind::Import => read_import(alloc, rest, chips),
        EventKind::Look => Ok(read_look(rest, chips)?),
    }
}

/// Reads one event line of a script with so many chips. It is refused by rule 1 where it isn't in the grammar, and by rule 2 where HEX says too much
/// or N is beyond its limits.
pub fn read_event(alloc: Global, line: &[u8], chips: u32) -> Result<NamedEvent, LineRefusal>
    ensures { Answers (λ event. event) rule_of result (event_of chips line.now) }
{
    if !are_words(line) {
        return Err(LineRefusal::Rule(LineRule::Grammar));
    }
    let (word, rest) = cut(line);
    match kind_of(word) {
        Some(kind) => read_as(alloc, kind, rest, chips),
        None => Err(LineRefusal::Rule(LineRule::Grammar)),
    }
}
