//! What is known grows by every rule.

ghost use Rattle.ec_sim_world_laws.specs.growth.Laws.{GrowsInNoStep, GrowsInTwoSteps, ExpressionsGrow, ArgumentsGrow, TypesGrow, LengthsGrow, InitializersGrow, DeclarationsGrow, HandlersGrow, EmbeddedStatementsGrow, StatementsGrow, StatementListsGrow, FunctionsGrow, ProgramsGrow};

/// What is known behind a part of a program is what is known before it, and maybe more: nothing is lost but the names of
/// scopes that are left, and a struct whose members are listed, or being listed further out, stays as it is.
#[tactic(none)]
pub fn what_is_known_grows()
    ensures reflexive { GrowsInNoStep }
    ensures transitive { GrowsInTwoSteps }
    ensures expressions { ExpressionsGrow }
    ensures arguments { ArgumentsGrow }
    ensures types { TypesGrow }
    ensures lengths { LengthsGrow }
    ensures initializers { InitializersGrow }
    ensures declarations { DeclarationsGrow }
    ensures handlers { HandlersGrow }
    ensures embedded { EmbeddedStatementsGrow }
    ensures statements { StatementsGrow }
    ensures lists { StatementListsGrow }
    ensures functions { FunctionsGrow }
    ensures programs { ProgramsGrow }
{}
