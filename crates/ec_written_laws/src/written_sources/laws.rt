//! What holds of the written C of sources, as the contract of a function that does nothing.

ghost use Rattle.std.specs.Prelude.{◌≡◌, true, [], Result, Ok};
ghost use Rattle.ec_written_laws.specs.bound.Counts.{are_counted};
ghost use Rattle.ec_language.specs.Letters.{Text, each};
ghost use Rattle.ec_phases_defs.specs.Sources.{BoundProgram, ReadsSource};
ghost use Rattle.ec_writing_defs.specs.Shapes.{is_byte, is_written_shape};
ghost use Rattle.ec_written_laws.specs.written_sources.Written.{written_of};

use crate::bound::accepted_hosts_can_be_written;
use crate::kept::phases_keep_what_is_written;
use crate::source::{derived_trees_have_source_shape, sources_have_source_shape};
use crate::written::{blocks_have_written_shape, expanded_programs_have_written_shape};

/// What is written of an accepted source has the written shape, so that it is read back, if it has no embedded statement, or
/// the sizes and counts of the hosts of each are of type long.
#[tactic(none)]
pub fn sources_are_written_in_shape()
    ensures alone { (text : Text) (p : BoundProgram) → each is_byte text ≡ true
        → ReadsSource text (Ok p)
        → p.program.unit.embs ≡ [] → is_written_shape (written_of p) ≡ true }
    ensures embedded { (text : Text) (p : BoundProgram) → each is_byte text ≡ true
        → ReadsSource text (Ok p)
        → are_counted p.bounds ≡ true → is_written_shape (written_of p) ≡ true }
{
    sources_have_source_shape();
    derived_trees_have_source_shape();
    phases_keep_what_is_written();
    expanded_programs_have_written_shape();
    blocks_have_written_shape();
    accepted_hosts_can_be_written();
}
