//! What is written for the embedded statements of a source.

ghost use Rattle.ec_sim_source_laws.specs.block.Accepted.{StatementsAreCopied};

use ec_sim_program_laws::directive::directives_are_gone;
use ec_sim_statement_laws::argument::calls_are_those_of_their_places;
use ec_sim_world_laws::call::{pointers_are_seen, written_calls_are_resolved};
use ec_sim_world_laws::closing::closed_with_types_are_listed;
use ec_sim_world_laws::place::{what_grows_stays, what_is_written_stays};

/// Wherever an embedded statement of an accepted source stands, the block that is written in its place is resolved to its
/// call and the tests of its handlers, with no fault, and no more is known behind it than behind the statement. Of a
/// directive nothing is left. So it is if what is taken of the parts of statements holds.
#[tactic(none)]
pub fn embedded_statements_are_copied()
    ensures { StatementsAreCopied }
{
    calls_are_those_of_their_places();
    pointers_are_seen();
    written_calls_are_resolved();
    closed_with_types_are_listed();
    directives_are_gone();
    what_grows_stays();
    what_is_written_stays();
}
