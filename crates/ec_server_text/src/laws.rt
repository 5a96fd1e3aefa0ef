//! The readers are what the definition of statements for the server has, as the contract of a function that does nothing.

ghost use Rattle.ec_server_text.specs.Laws.{CursorsAreDeclared, CursorsArePrepared, HostsAreLongest, StatementsAreSent, SuffixesAreLongest, TransactionsAreControlled};

/// What is read token by token is what the definition has.
#[tactic(none)]
pub fn readers_are_exact()
    ensures suffixes { SuffixesAreLongest }
    ensures host { HostsAreLongest }
    ensures statement { StatementsAreSent }
    ensures transaction { TransactionsAreControlled }
    ensures cursor { CursorsAreDeclared }
    ensures prepared { CursorsArePrepared }
{}
