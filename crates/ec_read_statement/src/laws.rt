//! What the code decides is what the table of forms says, as the contract of a function that does nothing.

ghost use Rattle.ec_read_statement.specs.Laws.{IsDecided};

/// The first words decide the form that the table has, alone and behind AT.
#[tactic(none)]
pub fn forms_are_decided()
    ensures { IsDecided }
{}
