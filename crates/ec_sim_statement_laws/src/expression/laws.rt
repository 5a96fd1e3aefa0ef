//! What holds of every source and of what is written of it, as the contracts of functions that do nothing.

ghost use Rattle.ec_sim_statement_laws.specs.expression.Laws.{ExpressionsAreAlike, TypesAreAlike, LengthsAreAlike};

/// An expression, a type with its members and the lengths of an array are resolved and checked where they are written as they
/// are in the source, wherever nothing is wrong with the source.
#[tactic(none)]
pub fn written_expressions_are_alike()
    ensures expressions { ExpressionsAreAlike }
    ensures types { TypesAreAlike }
    ensures lengths { LengthsAreAlike }
{}
