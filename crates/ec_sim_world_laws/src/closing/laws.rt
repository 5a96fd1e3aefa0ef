//! Structs are closed in their order.

ghost use Rattle.ec_sim_world_laws.specs.closing.Laws.{StartsInOrder, StartsWithTypes, HadTypes, WithTypesHaveShapes, WithTypesAreListed, ExpressionsKeep, ArgumentsKeep, TypesKeep, LengthsKeep, InitializersKeep, DeclarationsKeep, HandlersKeep, EmbeddedStatementsKeep, StatementsKeep, StatementListsKeep, FunctionsKeep, ProgramsKeep, UnitsKeep};

/// Before and behind each part of a program, whatever its faults, the structs that are listed are closed, each behind those that
/// lie in its members, and no two of its members have one name.
#[tactic(none)]
pub fn structs_are_closed_in_order()
    ensures start { StartsInOrder }
    ensures expressions { ExpressionsKeep }
    ensures arguments { ArgumentsKeep }
    ensures types { TypesKeep }
    ensures lengths { LengthsKeep }
    ensures initializers { InitializersKeep }
    ensures declarations { DeclarationsKeep }
    ensures handlers { HandlersKeep }
    ensures embedded { EmbeddedStatementsKeep }
    ensures statements { StatementsKeep }
    ensures lists { StatementListsKeep }
    ensures functions { FunctionsKeep }
    ensures programs { ProgramsKeep }
    ensures units { UnitsKeep }
{}

/// Where each struct that is listed has members which all have types, each has a shape, and so those that are closed are all
/// that is to be known of them.
#[tactic(none)]
pub fn closed_with_types_are_listed()
    ensures start { StartsWithTypes }
    ensures before { HadTypes }
    ensures shapes { WithTypesHaveShapes }
    ensures closed { WithTypesAreListed }
{}
