// Reading to the end, and writing all.
ghost use Rattle.std.specs.Prelude.{◌≡◌, ◌≢◌, ℕ, ◌+◌, ◌<◌, ◌≤◌, List, length, IfOk, OnOk, OnErr, IsErrOf, ◌↔◌};
ghost use Rattle.std.specs.Io.KnownBytes.{Consumes, Appends, IsAtEnd};
ghost use Rattle.eac_base.specs.Causes.{Rose, HasCause, AppendsFront};
ghost use Rattle.eac_base.specs.Streaming.{TurnsAtMost};

use crate::{Failed, NoMemory, Octets, ReadRefusal, Sink, Source};
use std::alloc::Global;

// The most that one read is asked for.
const PIECE: usize = 4096;

/// Reads a source to its end. Each turn takes at least one byte, and none asks for more than one byte past the limit.
///
/// # Errors
///
/// [`ReadRefusal::TooLong`] exactly where more than `limit` bytes came, which are `limit + 1` then;
/// [`ReadRefusal::ReadFault`] only where the source's count of failed reads rose in this call or stands at its last
/// value, and without it that count stays. What was read before a refusal is gone.
pub fn read_all<S: Source>(alloc: Global, source: &mut S, limit: u64) -> Result<Octets, ReadRefusal>
    // What was left is what is answered, and it is at most the limit.
    ensures bytes { IfOk result (λ bytes. Consumes (S.left source.old) (S.left source.new) bytes
        × IsAtEnd (S.left source.new)
        × (length bytes ≤ limit)
        × TurnsAtMost (S.reads source.old) (S.reads source.new) (length bytes + 1)) }
    // Else a front of it was read, and it is longer than the limit exactly where that is the refusal.
    ensures front { OnErr result ((bytes : List ℕ) × Consumes (S.left source.old) (S.left source.new) bytes
        × (length bytes ≤ limit + 1)
        × (IsErrOf result ReadRefusal.TooLong ↔ (limit < length bytes))
        × TurnsAtMost (S.reads source.old) (S.reads source.new) (length bytes + 1)) }
    ensures fault { IsErrOf result ReadRefusal.ReadFault → Rose (S.faults source.old) (S.faults source.new) }
    ensures quiet { result ≢ Err ReadRefusal.ReadFault → S.faults source.new ≡ S.faults source.old }
    ensures later { S.faults source.old ≤ S.faults source.new }
    ensures taken { S.taken source.new ≡ S.taken source.old }
    ensures lost { S.lost source.new ≡ S.lost source.old }
{
    let mut bytes = Octets::new(alloc);
    let mut piece = [0u8; PIECE];
    'pieces: loop {
        let rest = limit - bytes.len() as u64;
        let asked = rest.min(PIECE as u64 - 1) as usize + 1;
        let Ok(count) = source.read(&mut piece[..asked]) else {
            return Err(ReadRefusal::ReadFault);
        };
        if count == 0 {
            return Ok(bytes);
        }
        if rest < count as u64 {
            return Err(ReadRefusal::TooLong);
        }
        if let Err(NoMemory) = bytes.push_all(&piece[..count]) {
            return Err(ReadRefusal::NoMemory);
        }
    }
}

/// Writes all of the bytes, and leaves what is left to read. It takes no memory.
///
/// # Errors
///
/// [`Failed`] only where the sink's count of failed writes rose in this call or stands at its last value, and without
/// it that count stays. A front of the bytes went out then, and never all of them.
pub fn write_all<K: Sink>(sink: &mut K, bytes: &[u8]) -> Result<(), Failed>
    ensures ok { OnOk result (Appends (K.taken sink.old) (K.taken sink.new) bytes.now) }
    ensures err { OnErr result (AppendsFront (K.taken sink.old) (K.taken sink.new) bytes.now) }
    ensures cause { HasCause (K.lost sink.old) (K.lost sink.new) result }
    ensures left { K.left sink.new ≡ K.left sink.old }
    ensures faults { K.faults sink.new ≡ K.faults sink.old }
    ensures turns { K.reads sink.new ≡ K.reads sink.old }
{
    let mut at = 0;
    while at < bytes.len() {
        let count = sink.write(&bytes[at..])?;
        at += count;
    }
    Ok(())
}
