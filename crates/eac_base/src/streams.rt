// What is read and what is written, on one object or on two.
ghost use Rattle.std.specs.Prelude.{◌≡◌, ℕ, List, ◌<◌, length, IfOk};
ghost use Rattle.std.specs.declared.option.Option.{Option};
ghost use Rattle.std.specs.Io.{ReadsAtMost, WritesAtMost};
ghost use Rattle.std.specs.Io.KnownBytes.{ReadConsumes, WriteAppends};
ghost use Rattle.eac_base.specs.Causes.{HasCause};
ghost use Rattle.eac_base.specs.Streaming.{CountsRead};

use crate::Failed;

/// What is known of an object that is read, written or both. One that isn't read tells nothing of reading, one that
/// isn't written nothing of writing, and their counts stay 0.
pub trait Stream {
    /// The bytes that are left to read, where the object tells them.
    ghost left: { Self → Option (List ℕ) };

    /// How often a read has failed. It never falls, and stays at its last value.
    ghost faults: { Self → ℕ };

    /// How often it was read, where the object tells that. It stays at its last value.
    ghost reads: { Self → Option ℕ };

    /// The bytes that were taken, where the object tells them.
    ghost taken: { Self → Option (List ℕ) };

    /// How often a write has failed. It never falls, and stays at its last value.
    ghost lost: { Self → ℕ };
}

/// A stream of bytes that is read.
pub trait Source: Stream {
    /// Puts bytes at the front of `into`, and gives how many. 0 for a nonempty `into` is the end of input. It leaves
    /// what was taken.
    ///
    /// # Errors
    ///
    /// [`Failed`] only where the count of failed reads rose in this call or stands at its last value; nothing was read
    /// then. Without it that count stays.
    fn read(&mut self, into: &mut [u8]) -> Result<usize, Failed>
        ensures count { ReadsAtMost result into.new }
        ensures bytes { ReadConsumes (Self.left self.old) (Self.left self.new) result into.new }
        ensures cause { HasCause (Self.faults self.old) (Self.faults self.new) result }
        ensures turn { CountsRead (Self.reads self.old) (Self.reads self.new) }
        ensures taken { Self.taken self.new ≡ Self.taken self.old }
        ensures lost { Self.lost self.new ≡ Self.lost self.old };
}

/// A stream of bytes that is written.
pub trait Sink: Stream {
    /// Takes a front of `from`, and gives how many bytes it took: of a nonempty piece at least one. It leaves what is
    /// left to read.
    ///
    /// # Errors
    ///
    /// [`Failed`] only where the count of failed writes rose in this call or stands at its last value; nothing was
    /// taken then. Without it that count stays.
    fn write(&mut self, from: &[u8]) -> Result<usize, Failed>
        ensures count { WritesAtMost result from.now }
        ensures progress { IfOk result (λ n. 0 < length from.now → 0 < n) }
        ensures bytes { WriteAppends (Self.taken self.old) (Self.taken self.new) result from.now }
        ensures cause { HasCause (Self.lost self.old) (Self.lost self.new) result }
        ensures left { Self.left self.new ≡ Self.left self.old }
        ensures faults { Self.faults self.new ≡ Self.faults self.old }
        ensures turns { Self.reads self.new ≡ Self.reads self.old };
}
