ghost use Rattle.std.specs.Prelude.{◌≡◌};

use crate::fault::{FaultKind, LimitKind};
use crate::line::Line;
use std::alloc::{AllocError, AllocFailed};

/// There was no memory left. It is the one answer that no clause ties to a cause.
#[derive(Clone, Copy, Debug, PartialEq, Eq)]
pub struct OutOfMemory;

impl From<AllocError> for OutOfMemory {
    fn from(_refused: AllocError) -> OutOfMemory {
        OutOfMemory
    }
}

impl<T: Drop> From<AllocFailed<T>> for OutOfMemory {
    fn from(_refused: AllocFailed<T>) -> OutOfMemory {
        OutOfMemory
    }
}

/// A source or a sink failed, and its count of faults rose.
#[derive(Clone, Copy, Debug, PartialEq, Eq)]
pub struct Failed;

/// Why a source was not read to its end.
#[derive(Clone, Copy, Debug, PartialEq, Eq)]
pub enum InputStop {
    /// The source failed.
    Fault,
    /// The source gave more bytes than are allowed.
    TooLong,
    /// There was no memory left.
    OutOfMemory,
}

impl From<Failed> for InputStop {
    ghost use Rattle.ec_base.specs.declared.stop.InputStop.TheVariants as reads;

    ghost from_gives = { λ _ stop. stop ≡ reads.Fault };

    fn from(_refused: Failed) -> InputStop {
        InputStop::Fault
    }
}

impl From<OutOfMemory> for InputStop {
    ghost use Rattle.ec_base.specs.declared.stop.InputStop.TheVariants as reads;

    ghost from_gives = { λ _ stop. stop ≡ reads.OutOfMemory };

    fn from(_refused: OutOfMemory) -> InputStop {
        InputStop::OutOfMemory
    }
}

/// Why a program stopped at an access or at an operation: the undefined behaviours of ISO/IEC 9899:1999 that are found
/// while it runs, each by its name.
#[derive(Clone, Copy, Debug, PartialEq, Eq)]
pub enum Trap {
    /// An access past the end of its object.
    Outside,
    /// An access to an object that was never made or has ended.
    Dead,
    /// An access through a null pointer.
    Null,
    /// A read of a byte that holds no value.
    Unset,
    /// A signed result that does not fit its type.
    Overflow,
    /// A shift by a negative amount, or by the width or more.
    Shift,
    /// A division by zero.
    Zero,
    /// The value of a function that ended without one.
    NoValue,
    /// The length of a VARCHAR below 0 or above its capacity.
    BadLen,
    /// No object can be made any more.
    Spent,
}

/// Why a text was not taken: a fault at its line, a limit, or want of memory.
#[derive(Clone, Copy, Debug, PartialEq, Eq)]
pub enum Stop {
    /// A fault, at the line of the text where it stands.
    Refused(FaultKind, Line),
    /// A limit of the tool.
    Limit(LimitKind),
    /// There was no memory left.
    OutOfMemory,
}

impl From<OutOfMemory> for Stop {
    ghost use Rattle.ec_base.specs.declared.stop.Stop.TheVariants as stops;

    ghost from_gives = { λ _ stop. stop ≡ stops.OutOfMemory };

    fn from(_refused: OutOfMemory) -> Stop {
        Stop::OutOfMemory
    }
}
