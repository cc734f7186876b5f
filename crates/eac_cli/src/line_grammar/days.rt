// Lines of the calendar.
ghost use Rattle.std.specs.Prelude.{Some};
ghost use Rattle.std.specs.Option.{option_copied};
ghost use Rattle.eac_base.specs.Answers.{Answers};
ghost use Rattle.plain_text.specs.Lines.{pieces_left};
ghost use Rattle.eac_cli.specs.DayLines.{day_of, day_said};

use crate::line_rule::LineRule;
use crate::named_event::NamedEvent;
use cv_dates::day_from_text;
use plain_text::words::one_word;

/// Reads DATE.
fn day_of(date: &[u8]) -> Result<NamedEvent, LineRule>
    ensures { Answers (λ event. event) (λ rule. Some rule) result (day_of date.now) }
{
    match day_from_text(date) {
        Ok(day) => Ok(NamedEvent::Day { day }),
        Err(_) => Err(LineRule::Grammar),
    }
}

/// Reads what stands behind the word `day`.
pub fn read_day(rest: Option<&[u8]>) -> Result<NamedEvent, LineRule>
    ensures { Answers (λ event. event) (λ rule. Some rule) result (day_said (pieces_left (option_copied rest.entry))) }
{
    match one_word(rest) {
        Some(date) => day_of(date),
        None => Err(LineRule::Grammar),
    }
}
