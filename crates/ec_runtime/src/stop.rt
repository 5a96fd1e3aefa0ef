//! Why a call goes no further.

use ec_base::{OutOfMemory, Trap};

/// Why a part of a call goes no further.
#[derive(Clone, Copy, Debug, PartialEq, Eq)]
pub(crate) enum Stop {
    /// A code ended the call. It stands in `sqlca`.
    Finished,
    /// The program stopped at an access.
    Trapped(Trap),
    /// There was no memory left.
    OutOfMemory,
}

impl From<OutOfMemory> for Stop {
    ghost use Rattle.ec_runtime.specs.declared.stop.Stop.TheVariants as stops;
    ghost use Rattle.std.specs.Prelude.{◌≡◌};

    ghost from_gives = { λ _ stop. stop ≡ stops.OutOfMemory };

    fn from(_refused: OutOfMemory) -> Stop {
        Stop::OutOfMemory
    }
}

/// Why a call did not return.
#[derive(Clone, Copy, Debug, PartialEq, Eq)]
pub enum CallStop {
    /// The program stopped at an access.
    Trapped(Trap),
    /// There was no memory left.
    OutOfMemory,
}
