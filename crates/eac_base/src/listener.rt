// Who gives connections.
ghost use Rattle.std.specs.Prelude.{◌≡◌, ℕ, List, ◌+◌, ◌≤◌, IfOk, IfSome, OnOk, OnErr};
ghost use Rattle.std.specs.declared.option.Option.{Option};
ghost use Rattle.eac_base.specs.Causes.{HasCause};
ghost use Rattle.eac_base.specs.Listening.{Finished, AcceptsFirst, AppendsFinished};

use crate::{Failed, Sink, Source};

/// Gives connections one after another, and takes each back when it is done with.
pub trait Listener {
    type Conn: Source + Sink;

    /// The inputs of the connections still to come, where the listener tells them.
    ghost coming: { Self → Option (List (List ℕ)) };

    /// The finished connections in their order, where the listener tells them.
    ghost finished: { Self → Option (List Finished) };

    /// How many connections are out. It is told always.
    ghost out: { Self → ℕ };

    /// How often an accepting has failed. It never falls, and stays at its last value.
    ghost faults: { Self → ℕ };

    /// Gives the next connection, of which nothing was read or taken yet.
    ///
    /// # Errors
    ///
    /// [`Failed`] only where the count of faults rose in this call or stands at its last value; no connection was taken
    /// then. Without it that count stays.
    fn accept(&mut self) -> Result<Self::Conn, Failed>
        ensures first { IfOk result (λ c.
            AcceptsFirst (coming self.old) (coming self.new) (Self.Conn.left c) (Self.Conn.taken c)) }
        ensures fresh { IfOk result (λ c. (Self.Conn.faults c ≡ 0)
            × (Self.Conn.lost c ≡ 0)
            × IfSome (Self.Conn.reads c) (λ reads. reads ≡ 0)) }
        ensures none { OnErr result (coming self.new ≡ coming self.old) }
        ensures kept { finished self.new ≡ finished self.old }
        ensures out_more { OnOk result (out self.new ≡ out self.old + 1) }
        ensures out_same { OnErr result (out self.new ≡ out self.old) }
        ensures cause { HasCause (faults self.old) (faults self.new) result };

    /// Takes a connection back. It takes no memory and can't fail.
    fn finish(&mut self, conn: Self::Conn)
        requires { 1 ≤ out self.old }
        ensures appended { AppendsFinished (finished self.old) (finished self.new)
            (Self.Conn.taken conn) (Self.Conn.faults conn) (Self.Conn.lost conn) }
        ensures kept { coming self.new ≡ coming self.old }
        ensures out_less { out self.new + 1 ≡ out self.old }
        ensures faults { faults self.new ≡ faults self.old };
}
