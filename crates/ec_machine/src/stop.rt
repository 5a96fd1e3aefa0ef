//! How a run ends, and why a step leads nowhere.

ghost use Rattle.std.specs.Prelude.{◌≡◌};

use ec_base::{Line, OutOfMemory, Trap};

/// How a run ends.
#[derive(Clone, Copy)]
pub enum End {
    Exited(u8),
    Trapped(Trap, Line),
    TurnsSpent,
    /// There is something that has no meaning. It never comes in a program without a fault.
    Stuck,
}

/// Why a step leads nowhere.
#[derive(Clone, Copy)]
pub enum Stop {
    Over(End),
    /// There was no memory left.
    OutOfMemory,
}

impl From<OutOfMemory> for Stop {
    ghost use Rattle.ec_machine.specs.declared.stop.Stop.TheVariants as stops;

    ghost from_gives = { λ _ stop. stop ≡ stops.OutOfMemory };

    fn from(_refused: OutOfMemory) -> Stop {
        Stop::OutOfMemory
    }
}
