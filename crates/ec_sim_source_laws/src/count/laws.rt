//! The sizes and counts of hosts.

ghost use Rattle.ec_sim_source_laws.specs.count.Counted.{StatementsAreCounted, SourcesAreCounted};

use ec_sim_world_laws::closing::closed_with_types_are_listed;
use ec_sim_world_laws::place::{references_are_places, what_grows_stays};

/// What is bound for a statement in which no host is at fault has sizes and counts of type long, where it stands.
#[tactic(none)]
pub fn statements_are_counted()
    ensures { StatementsAreCounted }
{
    references_are_places();
}

/// So has what is bound for each statement of an accepted source: the walk through it met the statement where its hosts are
/// places, and those of a cursor where it is declared.
#[tactic(none)]
pub fn sources_are_counted()
    ensures { SourcesAreCounted }
{
    references_are_places();
    what_grows_stays();
    closed_with_types_are_listed();
}
