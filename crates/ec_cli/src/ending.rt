ghost use Rattle.std.specs.Prelude.{◌≡◌, is_some};
ghost use Rattle.ec_cli.specs.Ending.{is_whole, status_of};
ghost use Rattle.ec_cli.specs.Reporting.{outcome_of};

use ec_base::{FaultKind, LimitKind, Line, Trap};

/// How a call of the tool ends.
#[derive(Clone, Copy, Debug, PartialEq, Eq)]
pub enum Ending {
    /// The C was written.
    Wrote,
    /// The program ran and returned, with this status.
    Exited(u8),
    /// The program stopped at this line.
    Trapped(Trap, Line),
    /// The program used up its turns.
    TurnsSpent,
    /// The words name no command.
    Usage,
    /// The input has a fault at this line.
    Refused(FaultKind, Line),
    /// The input passes a limit.
    Limit(LimitKind),
    /// The input could not be read to its end.
    ReadFault,
    /// The output took no more.
    WriteFault,
    /// There was no memory left.
    OutOfMemory,
}

/// Whether a program was run to its end.
pub fn is_whole(ending: &Ending) -> bool
    ensures whole { result ≡ is_whole ending.now }
    ensures outcome { result ≡ is_some (outcome_of ending.now) }
{
    matches!(
        ending,
        Ending::Exited(_) | Ending::Trapped(..) | Ending::TurnsSpent
    )
}

/// The exit status of the program for an ending: that of the program that ran, or one of 64 to 71, near to those of
/// `sysexits.h`. It takes no memory.
pub fn status(ending: &Ending) -> u8
    ensures { result ≡ status_of ending.now }
{
    match ending {
        Ending::Wrote => 0,
        Ending::Exited(status) => *status,
        Ending::Usage => 64,
        Ending::Refused(..) => 65,
        Ending::ReadFault => 66,
        Ending::Trapped(..) => 67,
        Ending::TurnsSpent => 68,
        Ending::OutOfMemory => 69,
        Ending::WriteFault => 70,
        Ending::Limit(_) => 71,
    }
}
