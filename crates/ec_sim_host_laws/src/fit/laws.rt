//! The numbers that are written for hosts.

ghost use Rattle.ec_sim_host_laws.specs.fit.Fits.{HostsFitTheirCalls};

use ec_sim_world_laws::place::sizes_are_those_of_the_tables;

/// The leaves of a host that isn't at fault fit a call: their symbols, lengths, counts and distances and those of their
/// indicators are numbers that a call may have, a value that is read once has one element, and there is a leaf.
#[tactic(none)]
pub fn hosts_fit_their_calls()
    ensures { HostsFitTheirCalls }
{
    sizes_are_those_of_the_tables();
}
