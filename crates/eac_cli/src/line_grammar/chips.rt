// Lines of events of chips.
ghost use Rattle.std.specs.Prelude.{◌≡◌, Some};
ghost use Rattle.std.specs.Option.{option_copied};
ghost use Rattle.eac_base.specs.Answers.{Answers, ◌gives◌};
ghost use Rattle.plain_text.specs.Lines.{pieces_left};
ghost use Rattle.eac_cli.specs.ChipLines as lines;
ghost use Rattle.eac_cli.specs.ChipLines.{make_said, present_said, import_said, look_said};
ghost use Rattle.eac_cli.specs.LineRules.{rule_of};

use crate::line_grammar::words::{bytes_of, holder_of};
use crate::line_rule::{LineRefusal, LineRule};
use crate::named_event::NamedEvent;
use plain_text::decimal::{is_decimal, read_number};
use plain_text::words::{one_word, two_words};
use std::alloc::Global;

// The chip of this number, where there are more chips than that. Four bytes hold each such number.
fn chip_below(number: Option<u32>, chips: u32) -> Option<u32>
    ensures { result ≡ (number gives λ n. lines.chip_below chips n) }
{
    match number {
        Some(number) if number < chips => Some(number),
        _ => None,
    }
}

/// Reads CHIP. It is `None` where the number isn't below that of the chips.
fn chip_of(word: &[u8], chips: u32) -> Result<Option<u32>, LineRule>
    ensures { Answers (λ chip. chip) (λ rule. Some rule) result (lines.chip_of chips word.now) }
{
    if !is_decimal(word) {
        return Err(LineRule::Grammar);
    }
    Ok(chip_below(read_number(word), chips))
}

fn make_of(chip: &[u8], authority: &[u8], chips: u32) -> Result<NamedEvent, LineRule>
    ensures { Answers (λ event. event) (λ rule. Some rule) result (lines.make_of chips chip.now authority.now) }
{
    let chip = chip_of(chip, chips)?;
    let authority = holder_of(authority)?;
    Ok(NamedEvent::Make { chip, authority })
}

/// Reads what stands behind the word `make`.
pub fn read_make(rest: Option<&[u8]>, chips: u32) -> Result<NamedEvent, LineRule>
    ensures { Answers (λ event. event) (λ rule. Some rule) result
        (make_said chips (pieces_left (option_copied rest.entry))) }
{
    match two_words(rest) {
        Some((chip, authority)) => make_of(chip, authority, chips),
        None => Err(LineRule::Grammar),
    }
}

fn present_of(chip: &[u8], terminal: &[u8], chips: u32) -> Result<NamedEvent, LineRule>
    ensures { Answers (λ event. event) (λ rule. Some rule) result (lines.present_of chips chip.now terminal.now) }
{
    let chip = chip_of(chip, chips)?;
    let terminal = holder_of(terminal)?;
    Ok(NamedEvent::Present { chip, terminal })
}

/// Reads what stands behind the word `present`.
pub fn read_present(rest: Option<&[u8]>, chips: u32) -> Result<NamedEvent, LineRule>
    ensures { Answers (λ event. event) (λ rule. Some rule) result
        (present_said chips (pieces_left (option_copied rest.entry))) }
{
    match two_words(rest) {
        Some((chip, terminal)) => present_of(chip, terminal, chips),
        None => Err(LineRule::Grammar),
    }
}

fn import_of(alloc: Global, chip: &[u8], hex: &[u8], chips: u32) -> Result<NamedEvent, LineRefusal>
    ensures { Answers (λ event. event) rule_of result (lines.import_of chips chip.now hex.now) }
{
    let chip = chip_of(chip, chips)?;
    let bytes = bytes_of(alloc, hex)?;
    Ok(NamedEvent::Import { chip, bytes })
}

/// Reads what stands behind the word `import`.
pub fn read_import(
    alloc: Global,
    rest: Option<&[u8]>,
    chips: u32,
) -> Result<NamedEvent, LineRefusal>
    ensures { Answers (λ event. event) rule_of result (import_said chips (pieces_left (option_copied rest.entry))) }
{
    match two_words(rest) {
        Some((chip, hex)) => import_of(alloc, chip, hex, chips),
        None => Err(LineRefusal::Rule(LineRule::Grammar)),
    }
}

fn look_of(chip: &[u8], chips: u32) -> Result<NamedEvent, LineRule>
    ensures { Answers (λ event. event) (λ rule. Some rule) result (lines.look_of chips chip.now) }
{
    let chip = chip_of(chip, chips)?;
    Ok(NamedEvent::Look { chip })
}

/// Reads what stands behind the word `look`.
pub fn read_look(rest: Option<&[u8]>, chips: u32) -> Result<NamedEvent, LineRule>
    ensures { Answers (λ event. event) (λ rule. Some rule) result
        (look_said chips (pieces_left (option_copied rest.entry))) }
{
    match one_word(rest) {
        Some(chip) => look_of(chip, chips),
        None => Err(LineRule::Grammar),
    }
}
