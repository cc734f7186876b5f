// Lines of acts of parties.
ghost use Rattle.std.specs.Prelude.{Some};
ghost use Rattle.std.specs.Option.{option_copied};
ghost use Rattle.eac_base.specs.Answers.{Answers};
ghost use Rattle.plain_text.specs.Lines.{pieces_left};
ghost use Rattle.eac_cli.specs.ActLines.{found_said, link_said, trust_said, apply_of, apply_said};

use crate::line_grammar::words::{holder_of, one_holder, three_words, two_holders};
use crate::line_rule::LineRule;
use crate::named_event::NamedEvent;

/// Reads what stands behind the word `found`.
pub fn read_found(rest: Option<&[u8]>) -> Result<NamedEvent, LineRule>
    ensures { Answers (λ event. event) (λ rule. Some rule) result
        (found_said (pieces_left (option_copied rest.entry))) }
{
    let authority = one_holder(rest)?;
    Ok(NamedEvent::Found { authority })
}

/// Reads what stands behind the word `link`.
pub fn read_link(rest: Option<&[u8]>) -> Result<NamedEvent, LineRule>
    ensures { Answers (λ event. event) (λ rule. Some rule) result
        (link_said (pieces_left (option_copied rest.entry))) }
{
    let authority = one_holder(rest)?;
    Ok(NamedEvent::Link { authority })
}

/// Reads what stands behind the word `trust`.
pub fn read_trust(rest: Option<&[u8]>) -> Result<NamedEvent, LineRule>
    ensures { Answers (λ event. event) (λ rule. Some rule) result
        (trust_said (pieces_left (option_copied rest.entry))) }
{
    let (party, authority) = two_holders(rest)?;
    Ok(NamedEvent::Trust { party, authority })
}

/// Reads HOLDER, AUTH and ROOT.
fn apply_of(holder: &[u8], authority: &[u8], root: &[u8]) -> Result<NamedEvent, LineRule>
    ensures { Answers (λ event. event) (λ rule. Some rule) result (apply_of holder.now authority.now root.now) }
{
    let holder = holder_of(holder)?;
    let authority = holder_of(authority)?;
    let root = holder_of(root)?;
    Ok(NamedEvent::Apply {
        holder,
        authority,
        root,
    })
}

/// Reads what stands behind the word `apply`.
pub fn read_apply(rest: Option<&[u8]>) -> Result<NamedEvent, LineRule>
    ensures { Answers (λ event. event) (λ rule. Some rule) result
        (apply_said (pieces_left (option_copied rest.entry))) }
{
    match three_words(rest) {
        Some((holder, authority, root)) => apply_of(holder, authority, root),
        None => Err(LineRule::Grammar),
    }
}
