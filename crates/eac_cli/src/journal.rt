// The lines of the journal, but for their answers.
ghost use Rattle.std.specs.Prelude.{◌≡◌, ◌++◌, length, take, OnOk, OnErr};
ghost use Rattle.std.specs.Io.KnownBytes.{Appends};
ghost use Rattle.eac_base.specs.Causes.{AppendsFront, HasCause};
ghost use Rattle.eac_cli.specs.Steps.{line_head, feed_of};

use eac_base::{Failed, NoMemory, Octets, Sink, write_all};
use plain_text::decimal::push_number;
use std::alloc::Global;

/// Appends what a line begins with: the number of the script's line, a colon and a space.
pub fn push_head(alloc: Global, out: &mut Octets, number: u64) -> Result<(), NoMemory>
    ensures { OnOk result (out.new ≡ out.old ++ line_head number) }
{
    push_number(alloc, out, number)?;
    out.push_all(b": ")
}

/// What ends a line: a line feed, and nothing where there is no line.
fn feed_of(text: &[u8]) -> &[u8]
    ensures { result.now ≡ feed_of text.now }
{
    if text.is_empty() { b"" } else { b"\n" }
}

/// Writes the line of this text, or nothing where it is empty. It takes no memory.
///
/// # Errors
///
/// As [`write_all`]: a front of the line went out, and never all of it.
pub fn write_line<K: Sink>(sink: &mut K, text: &[u8]) -> Result<(), Failed>
    ensures ok { OnOk result (Appends (K.taken sink.old) (K.taken sink.new) (text.now ++ feed_of text.now)) }
    ensures err { OnErr result (AppendsFront (K.taken sink.old) (K.taken sink.new) (text.now ++ feed_of text.now)) }
    ensures cause { HasCause (K.lost sink.old) (K.lost sink.new) result }
{
    write_all(sink, text)?;
    write_all(sink, feed_of(text))
}
