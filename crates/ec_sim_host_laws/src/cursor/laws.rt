//! The hosts of a cursor, where it is declared and where it is opened.

ghost use Rattle.ec_sim_host_laws.specs.cursor.Cursors.{ReferencesAreFoundAgain};

/// References in which nothing was wrong are resolved as they were, wherever more is known and their names denote the same.
#[tactic(none)]
pub fn references_are_found_again()
    ensures { ReferencesAreFoundAgain }
{}
