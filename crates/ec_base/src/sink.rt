ghost use Rattle.std.specs.Prelude.{ℕ, List, ◌<◌, ◌≤◌, length, IfOk};
ghost use Rattle.std.specs.Io.KnownBytes.{Keeps, WriteAppends};
ghost use Rattle.std.specs.declared.option.Option.{Option};
ghost use Rattle.ec_base.specs.Causes.{HasCause};

use crate::stop::Failed;

/// Where bytes go.
pub trait Sink {
    /// The bytes that it has taken, where the sink tells them.
    ghost held: { Self → Option (List ℕ) };

    /// How often it has failed. The count never falls, and stays at the last value of `u64`.
    ghost faults: { Self → ℕ };

    /// Takes the first bytes of `piece`, one or more, and answers their number.
    ///
    /// A failed put takes nothing.
    fn put(&mut self, piece: &[u8]) -> Result<usize, Failed>
        requires { 0 < length piece.now }
        ensures some { IfOk result (λ count. 0 < count) }
        ensures bound { IfOk result (λ count. count ≤ length piece.now) }
        ensures bytes { WriteAppends (held self.old) (held self.new) result piece.now }
        ensures cause { HasCause (faults self.old) (faults self.new) result };

    /// Passes on what it has taken and kept back, which it holds before and after.
    ///
    /// Who has put all that is to be put, flushes: only then has a sink failed wherever it could not pass a byte on.
    fn flush(&mut self) -> Result<(), Failed>
        ensures bytes { Keeps (held self.old) (held self.new) }
        ensures cause { HasCause (faults self.old) (faults self.new) result };
}
