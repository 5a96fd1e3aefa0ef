//! What holds of the objects and the labels of statements, as the contracts of functions that do nothing.

ghost use Rattle.std.specs.Prelude.{ℕ, List};
ghost use Rattle.ec_sound_defs.specs.Sound.{Signature, no_atoms};
ghost use Rattle.ec_sound_statement_laws.specs.Functions.{FunctionsAreMade, NamesStay, NamesHaveTheirPlaces, MainStands};
ghost use Rattle.ec_sound_statement_laws.specs.Labels.{LabelsStand};
ghost use Rattle.ec_sound_statement_laws.specs.Objects.{ExpressionsSpare, ArgumentsSpare, TypesSpare, LengthsSpare, InitializersSpare, DeclarationsMake, GlobalsMakeNone, ParametersMake, StatementsMake, ListsMake, BlocksAreFull};
ghost use Rattle.ec_sound_statement_laws.specs.Scopes.{DeclarationsKeep, ParametersKeep, StatementsKeep, ListsKeep, BodiesLeave, BlocksLeave, FunctionsAreKnown};
ghost use Rattle.ec_sound_statement_laws.specs.Sites.{ExpressionsStand, DeclarationsStand, GlobalsStand, ParametersStand, StatementsStand, ListsStand};
ghost use Rattle.ec_sound_statement_laws.specs.Values.{NothingIsReturned, ReturnsFit, ValuesAreStored, PartsAreStored};

/// Expressions, the types and lengths in them, and initializers make no storage but literals and calls of the library: the
/// objects, globals, functions and statements so far are the same behind them, and so is the block.
pub fn expressions_declare_nothing()
    ensures expressions { ExpressionsSpare }
    ensures arguments { ArgumentsSpare }
    ensures types { TypesSpare }
    ensures lengths { LengthsSpare }
    ensures initializers { InitializersSpare }
{}

/// Where a block ends, it has made as many objects as are declared in it and in no block further in, and while it is walked
/// through it stays the same block. So has a function made its parameters.
pub fn blocks_have_their_objects()
    ensures declarations { DeclarationsMake }
    ensures globals { GlobalsMakeNone }
    ensures parameters { ParametersMake }
    ensures statements { StatementsMake }
    ensures lists { ListsMake }
    ensures blocks { BlocksAreFull }
{}

/// Each label that a jump of a function may name stands in the resolved form of the function's body.
pub fn labels_are_there()
    ensures { LabelsStand }
{}

/// Each scope that a statement enters is left again: behind it, and behind parameters and declarations, the scopes round it are
/// as they were, and behind a block so is the scope that it stands in.
pub fn scopes_are_left()
    ensures declarations { DeclarationsKeep }
    ensures parameters { ParametersKeep }
    ensures statements { StatementsKeep }
    ensures lists { ListsKeep }
    ensures bodies { BodiesLeave }
    ensures blocks { BlocksLeave }
{}

/// Behind a function without a violation its name stands for it, as it may behind what it stood for before: with as many
/// parameters as are written, and defined where one of its declarations so far is a definition.
pub fn functions_are_known()
    ensures { FunctionsAreKnown }
{}

/// A function of a resolved program is made of each definition, in their order, and calls find it by the place of its name, since
/// in a program without a violation no two definitions have one name. `main` is there, takes nothing, and gives 0 at its end.
pub fn functions_have_their_places()
    ensures made { FunctionsAreMade }
    ensures names { NamesStay }
    ensures places { NamesHaveTheirPlaces }
    ensures main { MainStands }
{}

/// A value that is returned without a fault is of the sort of the function's type, once it is converted, and what initializes an
/// object or a part of it is stored there as what is wanted: a scalar, a text, or a struct by its address.
pub fn values_are_returned_and_stored()
    ensures nothing { NothingIsReturned }
    ensures returned { (gs : List Signature) (n : ℕ) → ReturnsFit gs no_atoms n }
    ensures values { (gs : List Signature) (n : ℕ) → ValuesAreStored gs no_atoms n }
    ensures parts { (gs : List Signature) (n : ℕ) → PartsAreStored gs no_atoms n }
{}

/// Where each name in scope stands for an object that has its place among those in scope, or for a function of its signature, so
/// it does behind expressions, declarations, parameters and statements, whatever their faults. As many objects are in
/// scope then: those of blocks further in are gone with their names.
pub fn names_in_scope_stand()
    ensures expressions { (gs : List Signature) → ExpressionsStand gs }
    ensures declarations { (gs : List Signature) → DeclarationsStand gs }
    ensures globals { (gs : List Signature) → GlobalsStand gs }
    ensures parameters { (gs : List Signature) → ParametersStand gs }
    ensures statements { (gs : List Signature) → StatementsStand gs }
    ensures lists { (gs : List Signature) → ListsStand gs }
{}
