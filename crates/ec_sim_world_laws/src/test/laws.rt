//! What holds of the tests behind every call.

ghost use Rattle.ec_sim_statement_laws.specs.expression.Laws.{ExpressionsAreAlike};
ghost use Rattle.ec_sim_world_laws.specs.test.Laws.{TestsAreResolved, AreaIsKnown};

/// The tests that are written behind the call of a statement are resolved to the tests of the actions that hold at the
/// statement, and the checks find nothing wrong in them where they found nothing wrong with the actions: if expressions are
/// found in what is written as they are in the source.
#[tactic(none)]
pub fn tests_are_resolved()
    ensures { ExpressionsAreAlike → TestsAreResolved }
{}

/// The structs of the communication area are known wherever the checks of a program come to.
#[tactic(none)]
pub fn the_area_is_known()
    ensures { AreaIsKnown }
{}
