//! What holds of the embedded statements of accepted sources, as the contracts of functions that do nothing.

ghost use Rattle.std.specs.Prelude.{◌≡◌, List, [], length, true, false, Ok};
ghost use Rattle.ec_ctypes.specs.declared.text.piece.Piece.{Piece};
ghost use Rattle.ec_ctypes.specs.trees.Embedded.{EmbData};
ghost use Rattle.ec_ctypes.specs.trees.Tokens.{TokenData};
ghost use Rattle.ec_ctypes.specs.trees.Units.{UnitData};
ghost use Rattle.ec_written_laws.specs.bound.Counts.{are_counted};
ghost use Rattle.ec_written_laws.specs.bound.Numbers.{tops_numbers, numbers_from};
ghost use Rattle.ec_written_laws.specs.bound.Written.{are_hosts_written};
ghost use Rattle.ec_host_defs.specs.Statements.{statement_places};
ghost use Rattle.ec_language.specs.Letters.{Text, each};
ghost use Rattle.ec_language.specs.Syntax.{TreeOrStop};
ghost use Rattle.ec_language.specs.Tokens.{Tokens};
ghost use Rattle.ec_phases_defs.specs.Sources.{BoundProgram, ReadsSource, ReadsStatements};
ghost use Rattle.ec_writing_defs.specs.Shapes.{is_byte};

use crate::source::{derived_trees_have_source_shape, sources_have_source_shape};

/// The embedded statements that stand in the tree of a source are all of its statements, in their order.
pub fn all_statements_stand_in_trees()
    ensures { (pieces : List Piece) (ts : List TokenData) (u : UnitData) (es : List EmbData)
        → Tokens false pieces ts → TreeOrStop ts (Ok u)
        → ReadsStatements pieces (statement_places ts) (Ok es)
        → tops_numbers u.tops [] ≡ numbers_from 0 (length es) }
{}

/// The hosts of the statements of an accepted source and the actions that hold at them can be written, if their sizes and
/// counts can: names are names of C that an expression can begin with, members and labels have plain names, and texts are
/// bytes.
#[tactic(none)]
pub fn accepted_hosts_can_be_written()
    ensures { (text : Text) (p : BoundProgram) → each is_byte text ≡ true
        → ReadsSource text (Ok p)
        → are_counted p.bounds ≡ true → are_hosts_written p ≡ true }
{
    sources_have_source_shape();
    derived_trees_have_source_shape();
}
