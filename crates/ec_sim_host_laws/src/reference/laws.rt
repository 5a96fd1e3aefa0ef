//! The references of a statement, in the source and where they are written.

ghost use Rattle.ec_sim_statement_laws.specs.expression.Laws.{ExpressionsAreAlike};
ghost use Rattle.ec_sim_host_laws.specs.reference.Found.{ReferencesAreFound, ReferencesAreThere, KnownNamesAreDeclared};

/// References in which nothing is wrong are found as they are where they are written, and nothing is made by them.
#[tactic(none)]
pub fn references_are_found()
    ensures { ExpressionsAreAlike → ReferencesAreFound }
{}

/// So are those of a source in the source itself.
#[tactic(none)]
pub fn references_are_there()
    ensures { ReferencesAreThere }
{}

/// What is known, scope by scope, tells what a name stands for.
#[tactic(none)]
pub fn known_names_are_declared()
    ensures { KnownNamesAreDeclared }
{}
