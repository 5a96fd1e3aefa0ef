//! That what is taken of the parts of declarations and statements holds of every source.

ghost use Rattle.ec_sim_program_laws.specs.program.Laws.{PartsAreAlike};

use ec_sim_statement_laws::expression::{
    written_expressions_are_alike, written_initializers_are_alike, written_varchars_are_alike,
};

/// Expressions, types, lengths, initializers and the structs of VARCHARs are alike in every source and in what is written of it.
#[tactic(none)]
pub fn written_parts_are_alike()
    ensures { PartsAreAlike }
{
    written_expressions_are_alike();
    written_initializers_are_alike();
    written_varchars_are_alike();
}
