//! Where a run was left.

ghost use Rattle.std.specs.Prelude.{◌≡◌};
ghost use Rattle.ec_interp.specs.running.Halts.{halt_of};

use ec_machine::{End, Stop};

/// Where a run was left.
#[derive(Clone, Copy)]
pub enum Halt {
    /// A call has a request to make, which waits.
    Asks,
    /// It is over.
    Over(End),
    /// An output could not take what was printed.
    WriteFault,
    /// There was no memory left.
    OutOfMemory,
}

/// A run is left where a step leads nowhere.
pub(crate) fn halt_for(stop: Stop) -> Halt
    ensures { result ≡ halt_of stop }
{
    match stop {
        Stop::Over(end) => Halt::Over(end),
        Stop::OutOfMemory => Halt::OutOfMemory,
    }
}
