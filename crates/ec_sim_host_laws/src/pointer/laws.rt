//! What holds of the calls that are written for statements.

ghost use Rattle.ec_sim_host_laws.specs.pointer.Pointers.{CallsStand, StatementsHaveTargets, RulesAreKept};

use ec_sim_world_laws::place::{
    leaves_lie_in_their_hosts, members_are_those_of_the_tables, references_are_places,
};

/// Of the call that is written for a statement in which no host is at fault, the pointers are arguments and names with their
/// suffixes, and it keeps the rules by what is seen of them where it stands.
#[tactic(none)]
pub fn written_calls_stand()
    ensures { CallsStand }
{
    references_are_places();
    leaves_lie_in_their_hosts();
    members_are_those_of_the_tables();
}

/// A statement with hosts that its answer goes into stores into something: each of them has a leaf.
#[tactic(none)]
pub fn statements_have_targets()
    ensures { StatementsHaveTargets }
{
    references_are_places();
    leaves_lie_in_their_hosts();
    members_are_those_of_the_tables();
}

/// A call keeps its rules whatever its pointers are resolved to.
#[tactic(none)]
pub fn rules_are_kept()
    ensures { RulesAreKept }
{}
