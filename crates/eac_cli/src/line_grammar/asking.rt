// Lines of the plain register.
ghost use Rattle.std.specs.Option.{option_copied};
ghost use Rattle.eac_base.specs.Answers.{Answers};
ghost use Rattle.plain_text.specs.Lines.{pieces_left};
ghost use Rattle.eac_cli.specs.AskLines.{ask_of, ask_said};
ghost use Rattle.eac_cli.specs.LineRules.{rule_of};

use crate::line_grammar::words::bytes_of;
use crate::line_rule::{LineRefusal, LineRule};
use crate::named_event::NamedEvent;
use holder_reference::read_reference;
use plain_text::words::two_words;
use std::alloc::Global;

/// Reads REFERENCE and HEX.
fn ask_of(alloc: Global, reference: &[u8], hex: &[u8]) -> Result<NamedEvent, LineRefusal>
    ensures { Answers (λ event. event) rule_of result (ask_of reference.now hex.now) }
{
    let Ok(reference) = read_reference(reference) else {
        return Err(LineRefusal::Rule(LineRule::Grammar));
    };
    let bytes = bytes_of(alloc, hex)?;
    Ok(NamedEvent::Ask { reference, bytes })
}

/// Reads what stands behind the word `ask`.
pub fn read_ask(alloc: Global, rest: Option<&[u8]>) -> Result<NamedEvent, LineRefusal>
    ensures { Answers (λ event. event) rule_of result (ask_said (pieces_left (option_copied rest.entry))) }
{
    match two_words(rest) {
        Some((reference, hex)) => ask_of(alloc, reference, hex),
        None => Err(LineRefusal::Rule(LineRule::Grammar)),
    }
}
