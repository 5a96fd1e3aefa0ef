//! What holds of the declarations of every source, as the contract of a function that does nothing.

ghost use Rattle.ec_sim_program_laws.specs.program.Declared.{PlainAreAlike, VarcharsAreAlike, DeclarationsAreAlike};
ghost use Rattle.ec_sim_program_laws.specs.program.Laws.{PartsAreAlike};

/// A declaration declares where it is written what it declares in the source, and each VARCHAR by a declaration of its own:
/// the same objects at the same places, with the same types and what is stored in them, wherever nothing is wrong with the
/// source. What is written has no fault there.
#[tactic(none)]
pub fn written_declarations_are_alike()
    ensures plain { PartsAreAlike → PlainAreAlike }
    ensures varchars { PartsAreAlike → VarcharsAreAlike }
    ensures declarations { PartsAreAlike → DeclarationsAreAlike }
{}
