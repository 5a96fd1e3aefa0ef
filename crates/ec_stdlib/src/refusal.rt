//! Why a call of a known function gives nothing.

ghost use Rattle.std.specs.Prelude.{◌≡◌};

use ec_base::{OutOfMemory, Trap};
use ec_printf::formats::Channel;
use ec_values::Word;

/// Why a call gives no answer.
#[derive(Clone, Copy, Debug, PartialEq, Eq)]
pub enum Refusal {
    Trap(Trap),
    /// The run ends with this status.
    Exit(u8),
    /// The arguments are not those that the function takes. It never comes in a program without a fault.
    Misfit,
    /// There was no memory left.
    OutOfMemory,
}

impl From<OutOfMemory> for Refusal {
    ghost use Rattle.ec_stdlib.specs.declared.refusal.Refusal.TheVariants as refusals;

    ghost from_gives = { λ _ refusal. refusal ≡ refusals.OutOfMemory };

    fn from(_refused: OutOfMemory) -> Refusal {
        Refusal::OutOfMemory
    }
}

/// What a call gives: a value, if the function has one, and where the bytes go that it puts.
#[derive(Clone, Copy, Debug)]
pub struct Answer {
    pub value: Option<Word>,
    pub channel: Channel,
}
