//! What holds of the VARCHARs of every source, as the contract of a function that does nothing.

ghost use Rattle.ec_sim_statement_laws.specs.expression.Varchars.{VarcharObjectsAreAlike, OuterLengthsAreAlike};

/// The struct of a VARCHAR that is no member, and its array lengths but for the last, are found where it is written as they are
/// in the source, wherever nothing is wrong with the source.
#[tactic(none)]
pub fn written_varchars_are_alike()
    ensures objects { VarcharObjectsAreAlike }
    ensures outer_lengths { OuterLengthsAreAlike }
{}
