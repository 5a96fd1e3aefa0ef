//! What holds of all accepted sources.

ghost use Rattle.std.specs.Prelude.{◌≡◌, true, []};
ghost use Rattle.ec_written_laws.specs.bound.Counts.{are_counted};
ghost use Rattle.ec_expansion_defs.specs.Programs.{written_program};
ghost use Rattle.ec_language.specs.Letters.{Text};
ghost use Rattle.ec_phases_defs.specs.Sources.{BoundProgram};
ghost use Rattle.ec_typing_defs.specs.Answers.{checked, violations};
ghost use Rattle.ec_phases_defs.specs.translation.Accepted.{IsAcceptedText};
ghost use Rattle.ec_sim_program_laws.specs.types.Types.{StructsAreShallow};
ghost use Rattle.ec_sim_source_laws.specs.meaning.Meanings.{MeanTheSame};

use crate::block::embedded_statements_are_copied;
use crate::count::{sources_are_counted, statements_are_counted};
use crate::object::cursors_are_of_objects;
use ec_phases_defs::statements_have_places;
use ec_sim_host_laws::cursor::references_are_found_again;
use ec_sim_host_laws::fit::hosts_fit_their_calls;
use ec_sim_host_laws::host::{parts_lead_to_their_places, statements_lead_to_their_places};
use ec_sim_host_laws::pointer::{rules_are_kept, statements_have_targets, written_calls_stand};
use ec_sim_host_laws::reference::{
    known_names_are_declared, references_are_found, references_are_there,
};
use ec_sim_host_laws::table::tables_are_sound;
use ec_sim_program_laws::flat::{structs_are_shallow, trees_are_flat};
use ec_sim_program_laws::program::{written_parts_are_alike, written_programs_are_copies};
use ec_sim_program_laws::shape::statements_are_read;
use ec_sim_program_laws::standing::sources_stand;
use ec_sim_program_laws::types::sources_have_types;
use ec_sim_statement_laws::statement::copies_do_what_sources_do;
use ec_sim_world_laws::known::what_is_known_is_kept;
use ec_sim_world_laws::test::{tests_are_resolved, the_area_is_known};
use ec_written_laws::bound::all_statements_stand_in_trees;
use ec_written_laws::source::{derived_trees_have_source_shape, sources_have_source_shape};

/// The C that is written of an accepted source means what the source means: run over the library, it asks the same, prints the
/// same bytes, leaves the same in every object and ends the same as the source by its embedded statements. The checks of
/// written C find nothing wrong in it, no struct in it begins with more than 2^30 types, one in another, and the sizes and
/// counts of its hosts are of type long.
#[tactic(none)]
pub fn sources_mean_what_is_written()
    ensures meanings { (text : Text) (p : BoundProgram) → IsAcceptedText text p
        → MeanTheSame p.program }
    ensures checks { (text : Text) (p : BoundProgram) → IsAcceptedText text p
        → violations true (written_program p.program p.bounds) ≡ [] }
    ensures shallow { (text : Text) (p : BoundProgram) → IsAcceptedText text p
        → StructsAreShallow (checked true (written_program p.program p.bounds)).world }
    ensures counted { (text : Text) (p : BoundProgram) → IsAcceptedText text p
        → are_counted p.bounds ≡ true }
{
    all_statements_stand_in_trees();
    sources_have_source_shape();
    derived_trees_have_source_shape();
    statements_have_places();
    statements_are_read();
    tables_are_sound();
    what_is_known_is_kept();
    written_parts_are_alike();
    written_programs_are_copies();
    sources_stand();
    sources_have_types();
    trees_are_flat();
    structs_are_shallow();
    cursors_are_of_objects();
    statements_are_counted();
    sources_are_counted();
    references_are_found();
    references_are_there();
    known_names_are_declared();
    references_are_found_again();
    statements_lead_to_their_places();
    parts_lead_to_their_places();
    written_calls_stand();
    statements_have_targets();
    rules_are_kept();
    hosts_fit_their_calls();
    tests_are_resolved();
    the_area_is_known();
    embedded_statements_are_copied();
    copies_do_what_sources_do();
}
