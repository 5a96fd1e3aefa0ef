//! Where a machine is between its beginning and its end.

ghost use Rattle.std.specs.Prelude.{◌≡◌};
ghost use Rattle.ec_stepper.specs.Standing.{standing_behind};

use ec_interp::Step;

/// Where a machine is between its beginning and its end.
#[derive(Clone, Copy, Debug, PartialEq, Eq)]
pub enum Standing {
    /// It wasn't begun.
    New,
    /// It was begun, and made no step yet.
    Begun,
    /// A request of it waits.
    Asks,
    /// Its run is over, or was left.
    Ended,
    /// Its connections were given back.
    Released,
}

/// Where it is behind a step.
pub(crate) fn behind(step: Step) -> Standing
    ensures { result ≡ standing_behind step }
{
    match step {
        Step::Asks => Standing::Asks,
        Step::Ended(_) => Standing::Ended,
    }
}
