// Lines of packets that are sent or come.
ghost use Rattle.std.specs.Prelude.{Some};
ghost use Rattle.std.specs.Option.{option_copied};
ghost use Rattle.eac_base.specs.Answers.{Answers};
ghost use Rattle.plain_text.specs.Lines.{pieces_left};
ghost use Rattle.eac_cli.specs.LineRules.{rule_of};
ghost use Rattle.eac_cli.specs.PacketLines.{fetch_said, push_said, send_of, send_said, packet_of, deliver_said};

use crate::line_grammar::words::{bytes_of, holder_of, three_words, two_holders};
use crate::line_rule::{LineRefusal, LineRule};
use crate::named_event::NamedEvent;
use plain_text::decimal::{is_decimal, read_number};
use plain_text::words::one_word;
use std::alloc::Global;

/// The greatest N.
const MOST_PACKETS: u32 = 1_000_000;

/// Reads what stands behind the word `fetch`.
pub fn read_fetch(rest: Option<&[u8]>) -> Result<NamedEvent, LineRule>
    ensures { Answers (λ event. event) (λ rule. Some rule) result
        (fetch_said (pieces_left (option_copied rest.entry))) }
{
    let (party, desk) = two_holders(rest)?;
    Ok(NamedEvent::Fetch { party, desk })
}

/// Reads what stands behind the word `push`.
pub fn read_push(rest: Option<&[u8]>) -> Result<NamedEvent, LineRule>
    ensures { Answers (λ event. event) (λ rule. Some rule) result
        (push_said (pieces_left (option_copied rest.entry))) }
{
    let (desk, party) = two_holders(rest)?;
    Ok(NamedEvent::Push { desk, party })
}

/// Reads FROM, TO and HEX.
fn send_of(alloc: Global, from: &[u8], to: &[u8], hex: &[u8]) -> Result<NamedEvent, LineRefusal>
    ensures { Answers (λ event. event) rule_of result (send_of from.now to.now hex.now) }
{
    let from = holder_of(from)?;
    let to = holder_of(to)?;
    let bytes = bytes_of(alloc, hex)?;
    Ok(NamedEvent::Send { from, to, bytes })
}

/// Reads what stands behind the word `send`.
pub fn read_send(alloc: Global, rest: Option<&[u8]>) -> Result<NamedEvent, LineRefusal>
    ensures { Answers (λ event. event) rule_of result (send_said (pieces_left (option_copied rest.entry))) }
{
    match three_words(rest) {
        Some((from, to, hex)) => send_of(alloc, from, to, hex),
        None => Err(LineRefusal::Rule(LineRule::Grammar)),
    }
}

/// Reads N. A number that four bytes can't hold is beyond the limit too.
fn packet_of(word: &[u8]) -> Result<NamedEvent, LineRule>
    ensures { Answers (λ event. event) (λ rule. Some rule) result (packet_of word.now) }
{
    if !is_decimal(word) {
        return Err(LineRule::Grammar);
    }
    let Some(number) = read_number(word) else {
        return Err(LineRule::Limit);
    };
    if number < 1 || MOST_PACKETS < number {
        return Err(LineRule::Limit);
    }
    Ok(NamedEvent::Deliver {
        packet: number as u64,
    })
}

/// Reads what stands behind the word `deliver`.
pub fn read_deliver(rest: Option<&[u8]>) -> Result<NamedEvent, LineRule>
    ensures { Answers (λ event. event) (λ rule. Some rule) result
        (deliver_said (pieces_left (option_copied rest.entry))) }
{
    match one_word(rest) {
        Some(word) => packet_of(word),
        None => Err(LineRule::Grammar),
    }
}
