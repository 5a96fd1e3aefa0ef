//! Why a value did not pass.

use ec_base::{OutOfMemory, Trap};

/// Why a value did not pass between a host and a statement.
#[derive(Clone, Copy, Debug, PartialEq, Eq)]
pub enum ConvStop {
    /// An access to the memory of the program trapped.
    Trapped(Trap),
    /// The field is none of the host's type, or is NULL where there is no indicator: a code of the library.
    Code(i64),
    /// There was no memory left.
    OutOfMemory,
}

impl From<Trap> for ConvStop {
    ghost use Rattle.std.specs.Prelude.{◌≡◌};
    ghost use Rattle.ec_convert.specs.declared.stop.ConvStop.TheVariants as stops;

    ghost from_gives = { λ trap stop. stop ≡ stops.Trapped trap };

    fn from(trap: Trap) -> ConvStop {
        ConvStop::Trapped(trap)
    }
}

impl From<OutOfMemory> for ConvStop {
    ghost use Rattle.std.specs.Prelude.{◌≡◌};
    ghost use Rattle.ec_convert.specs.declared.stop.ConvStop.TheVariants as stops;

    ghost from_gives = { λ _ stop. stop ≡ stops.OutOfMemory };

    fn from(_refused: OutOfMemory) -> ConvStop {
        ConvStop::OutOfMemory
    }
}
