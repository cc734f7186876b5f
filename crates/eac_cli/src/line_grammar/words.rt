// Words of event lines.
ghost use Rattle.std.specs.Prelude.{◌≡◌, Some, None, MatchOption};
ghost use Rattle.std.specs.Option.{option_copied};
ghost use Rattle.eac_base.specs.Answers.{Answers};
ghost use Rattle.plain_text.specs.Lines.{pieces_left};
ghost use Rattle.eac_cli.specs.LineRules.{rule_of};
ghost use Rattle.eac_cli.specs.LineWords as grammar;

use crate::line_rule::{LineRefusal, LineRule};
use eac_base::Octets;
use holder_reference::{Holder, read_holder};
use plain_text::hexadecimal::read_bytes;
use plain_text::words::{cut, one_word, two_words};
use std::alloc::Global;

/// The most bytes that HEX may say.
const MOST_BYTES: usize = 4096;

/// Reads the name of a party.
pub fn holder_of(word: &[u8]) -> Result<Holder, LineRule>
    ensures { Answers (λ holder. holder) (λ rule. Some rule) result (grammar.holder_of word.now) }
{
    match read_holder(word) {
        Ok(holder) => Ok(holder),
        Err(_) => Err(LineRule::Grammar),
    }
}

/// Reads the name of one party, and nothing behind it.
pub fn one_holder(rest: Option<&[u8]>) -> Result<Holder, LineRule>
    ensures { Answers (λ holder. holder) (λ rule. Some rule) result
        (grammar.one_holder (pieces_left (option_copied rest.entry))) }
{
    match one_word(rest) {
        Some(word) => holder_of(word),
        None => Err(LineRule::Grammar),
    }
}

fn both_holders(first: &[u8], second: &[u8]) -> Result<(Holder, Holder), LineRule>
    ensures { Answers (λ both. both) (λ rule. Some rule) result (grammar.both_holders first.now second.now) }
{
    let first = holder_of(first)?;
    let second = holder_of(second)?;
    Ok((first, second))
}

/// Reads the names of two parties, and nothing behind them.
pub fn two_holders(rest: Option<&[u8]>) -> Result<(Holder, Holder), LineRule>
    ensures { Answers (λ both. both) (λ rule. Some rule) result
        (grammar.two_holders (pieces_left (option_copied rest.entry))) }
{
    match two_words(rest) {
        Some((first, second)) => both_holders(first, second),
        None => Err(LineRule::Grammar),
    }
}

/// The words, where there are just three.
pub fn three_words(rest: Option<&[u8]>) -> Option<(&[u8], &[u8], &[u8])>
    ensures { let all = grammar.three_words (pieces_left (option_copied rest.entry)) in MatchOption result (all ≡ None)
        (λ three. all ≡ Some (three.0.now, three.1.now, three.2.now)) }
{
    let Some(line) = rest else {
        return None;
    };
    let (first, after) = cut(line);
    match two_words(after) {
        Some((second, third)) => Some((first, second, third)),
        None => None,
    }
}

// What HEX says, within its limit.
fn within(bytes: Octets) -> Result<Octets, LineRule>
    ensures { Answers (λ bytes. bytes) (λ rule. Some rule) result (grammar.within bytes) }
{
    if MOST_BYTES < bytes.len() {
        return Err(LineRule::Limit);
    }
    Ok(bytes)
}

/// Reads HEX.
pub fn bytes_of(alloc: Global, hex: &[u8]) -> Result<Octets, LineRefusal>
    ensures { Answers (λ bytes. bytes) rule_of result (grammar.bytes_of hex.now) }
{
    let Some(bytes) = read_bytes(alloc, hex)? else {
        return Err(LineRefusal::Rule(LineRule::Grammar));
    };
    Ok(within(bytes)?)
}
