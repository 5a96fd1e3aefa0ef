//! How far a run came, and how it ended.

ghost use Rattle.std.specs.Prelude.{◌≡◌};
ghost use Rattle.ec_interp.specs.Ends.{halt_of, stopped};

use crate::running::Halt;
use ec_base::{Line, Trap};
use ec_machine::End;
use ec_memory::MakeStop;

/// How a run ended, or why it was given up.
#[derive(Clone, Copy)]
pub enum RunEnd {
    /// The program ended itself, with this status (ISO/IEC 9899:1999, 7.20.4.3).
    Exited(u8),
    /// It did what has no defined result, at a statement of this line.
    Trapped(Trap, Line),
    /// It needed one turn more than it was given.
    TurnsSpent,
    /// It came to what has no meaning.
    Stuck,
    /// An output could not take what was printed.
    WriteFault,
    /// There was no memory left.
    OutOfMemory,
}

/// How far a run came.
#[derive(Clone, Copy)]
pub enum Step {
    /// A request of it waits.
    Asks,
    /// It isn't gone on with.
    Ended(RunEnd),
}

/// How far a run came that was left so.
pub(crate) fn step_of(halt: Halt) -> Step
    ensures { halt_of result ≡ halt }
{
    match halt {
        Halt::Asks => Step::Asks,
        Halt::Over(End::Exited(status)) => Step::Ended(RunEnd::Exited(status)),
        Halt::Over(End::Trapped(trap, line)) => Step::Ended(RunEnd::Trapped(trap, line)),
        Halt::Over(End::TurnsSpent) => Step::Ended(RunEnd::TurnsSpent),
        Halt::Over(End::Stuck) => Step::Ended(RunEnd::Stuck),
        Halt::WriteFault => Step::Ended(RunEnd::WriteFault),
        Halt::OutOfMemory => Step::Ended(RunEnd::OutOfMemory),
    }
}

/// The end of a run for which an object of the program could not be made. They are made on line 1.
pub(crate) fn unopened(why: MakeStop) -> RunEnd
    ensures { result ≡ stopped why }
{
    match why {
        MakeStop::Spent => RunEnd::Trapped(Trap::Spent, Line(1)),
        MakeStop::OutOfMemory => RunEnd::OutOfMemory,
    }
}
