//! Nothing is written for a directive.

ghost use Rattle.std.specs.Prelude.{◌≡◌, ℕ, true, List, Some, slice_get};
ghost use Rattle.ec_ctypes.specs.trees.Checked.{MarkData, BoundData, TypedData};
ghost use Rattle.ec_ctypes.specs.trees.Embedded.{EmbData};
ghost use Rattle.ec_expansion_defs.specs.Programs.{embedded};
ghost use Rattle.ec_resolving_defs.specs.Storage.{LibraryCall, StatementForm};
ghost use Rattle.ec_typing_defs.specs.statement_parts.Handlers.{is_directive};
ghost use Rattle.ec_typing_defs.specs.statement_parts.References.{references};
ghost use Rattle.ec_typing_defs.specs.Worlds.{World};
ghost use Rattle.ec_sim_world_laws.specs.known.Laws.{EmbeddedStatementsKeep};
ghost use Rattle.ec_sim_program_laws.specs.program.Embedded.{DirectiveIsGone};
ghost use Rattle.ec_sim_program_laws.specs.program.Programs.{whole_by};
ghost use Rattle.ec_sim_program_laws.specs.directive.References.{MakeNothing};

/// Nothing is written in the place of a directive, and behind it no more is known of the source than before, but for its own
/// form and what its references denote, which are found as they stand in the source.
#[tactic(none)]
pub fn directives_are_gone()
    ensures { (t : TypedData) (forms : List StatementForm) (calls : List LibraryCall)
        (numbers : List ℕ) (w : World) (handlers : List MarkData) (bounds : List BoundData)
        (n : ℕ) (e : EmbData)
        → slice_get t.unit.embs n ≡ Some e → is_directive e ≡ true → MakeNothing (references e)
        → EmbeddedStatementsKeep t.unit
        → DirectiveIsGone (whole_by t forms calls numbers w) t.unit.embs
        (embedded handlers t.unit.embs bounds) n e }
{}
