//! The forms are read exactly, as the contract of a function that does nothing.

ghost use Rattle.ec_embedded.specs.Laws.{HasOneAnswer, IsAnswered, IsReadExactly, PieceHasOneAnswer, PieceIsAnswered};
ghost use Rattle.ec_embedded.specs.Connections.{connect_form, set_connection_form, disconnect_form, autocommit_form};
ghost use Rattle.ec_embedded.specs.Descriptors.{allocate_form, get_form, set_form};
ghost use Rattle.ec_embedded.specs.Directives.{whenever_form, include_form, cursor_form};
ghost use Rattle.ec_embedded.specs.Dynamic.{prepare_form, execute_form, deallocate_form, deallocate_at_form, open_form};
ghost use Rattle.ec_embedded.specs.Statements.{at_form};

/// What the plain reading says of tokens is so, and nothing else is: they are a tree of the form, or stop to be a front of it
/// at one token, or end too soon, or pass a limit at one token.
#[tactic(none)]
pub fn forms_are_exact()
    ensures connect { IsReadExactly connect_form }
    ensures set_connection { IsReadExactly set_connection_form }
    ensures disconnect { IsReadExactly disconnect_form }
    ensures autocommit { IsReadExactly autocommit_form }
    ensures allocate { IsReadExactly allocate_form }
    ensures get { IsReadExactly get_form }
    ensures set { IsReadExactly set_form }
    ensures whenever { IsReadExactly whenever_form }
    ensures include { IsReadExactly include_form }
    ensures cursor { IsReadExactly cursor_form }
    ensures prepare { IsReadExactly prepare_form }
    ensures execute { IsReadExactly execute_form }
    ensures deallocate { IsReadExactly deallocate_form }
    ensures deallocate_at { IsReadExactly deallocate_at_form }
    ensures open_cursor { IsReadExactly open_form }
    ensures at { IsReadExactly at_form }
{}

/// The tokens of a statement have one answer, which the plain reading gives: what the statement is, or why it is none. So
/// has each piece whose text has tokens.
#[tactic(none)]
pub fn statements_have_one_answer()
    ensures answered { IsAnswered }
    ensures one { HasOneAnswer }
    ensures piece { PieceIsAnswered }
    ensures one_of_piece { PieceHasOneAnswer }
{}
