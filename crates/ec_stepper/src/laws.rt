//! Machines that share a rack.

ghost use Rattle.ec_stepper.specs.Sharing.{StandsStill};

use crate::machine::Machine;
use ec_link::Rack;

/// What another machine says over its own connections leaves this one where it stands over the rack, if no slot is that of
/// connections of both.
pub fn machines_share_a_rack(machine: &Machine<'_>, rack: &Rack)
    ensures { StandsStill machine.now rack.now }
{}
