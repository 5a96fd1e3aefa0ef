//! What initializers store.

ghost use Rattle.std.specs.Prelude.{◌≡◌, false, List};
ghost use Rattle.ec_meaning_defs.specs.resolved.Resolved.{Exp};
ghost use Rattle.ec_resolving_defs.specs.Initializers.{PartData, parts_stored};
ghost use Rattle.ec_sim_statement_laws.specs.statement.Blocks.{have_call};
ghost use Rattle.ec_sim_statement_laws.specs.statement.Clean.{CallsNone};
ghost use Rattle.ec_sim_statement_laws.specs.expression.Laws.{ExpressionsAreAlike, InitializersAreAlike};
ghost use Rattle.ec_sim_statement_laws.specs.expression.Optional.{OptionalInitializersAreAlike};
ghost use Rattle.ec_sim_statement_laws.specs.expression.Silent.{PartsCallNone};

/// An initializer is alike wherever expressions are: where nothing is wrong with the source, the same is stored at the same
/// places in what is written of it.
#[tactic(none)]
pub fn written_initializers_are_alike()
    ensures { ExpressionsAreAlike → InitializersAreAlike }
{}

/// The same of the initializer of a declarator, which may have none.
#[tactic(none)]
pub fn written_optional_initializers_are_alike()
    ensures { ExpressionsAreAlike → OptionalInitializersAreAlike }
{}

/// The parts of an initializer that call no library call none as they are stored in an object that is known without one.
#[tactic(none)]
pub fn stored_parts_call_no_library()
    ensures { (at : Exp) (ps : List PartData) → CallsNone at → PartsCallNone ps
        → have_call (parts_stored at ps) ≡ false }
{}
