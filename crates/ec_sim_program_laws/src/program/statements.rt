//! What holds of the statements of every source, as the contract of a function that does nothing.

ghost use Rattle.std.specs.Prelude.{ℕ, List, Option};
ghost use Rattle.ec_ctypes.specs.trees.Checked.{TypedData};
ghost use Rattle.ec_ctypes.specs.trees.Embedded.{EmbData};
ghost use Rattle.ec_ctypes.specs.trees.Stmts.{StmtKindData};
ghost use Rattle.ec_typing_defs.specs.Worlds.{World};
ghost use Rattle.ec_resolving_defs.specs.Storage.{LibraryCall, StatementForm};
ghost use Rattle.ec_sim_world_laws.specs.known.Laws.{WalkKeeps};
ghost use Rattle.ec_sim_program_laws.specs.program.Embedded.{EmbeddedAreCopied};
ghost use Rattle.ec_sim_program_laws.specs.program.Laws.{PartsAreAlike, StatementsAreCopied, ItemsAreCopied};
ghost use Rattle.ec_sim_program_laws.specs.program.Programs.{whole_by};

/// A statement, and the items of a block, are resolved where they are written to a copy of what they are in the source, and the
/// checks find nothing wrong in it, wherever nothing is wrong with the source, what holds is kept by the walk through
/// it, and each embedded statement is copied.
#[tactic(none)]
pub fn written_statements_are_copied()
    ensures alone { (t : TypedData) (forms : List StatementForm) (calls : List LibraryCall)
        (numbers : List ℕ) (w : World) (es : List EmbData) (embedded : ℕ → Option StmtKindData)
        → PartsAreAlike → WalkKeeps t.unit
        → EmbeddedAreCopied (whole_by t forms calls numbers w) es embedded
        → StatementsAreCopied (whole_by t forms calls numbers w) es embedded }
    ensures items { (t : TypedData) (forms : List StatementForm) (calls : List LibraryCall)
        (numbers : List ℕ) (w : World) (es : List EmbData) (embedded : ℕ → Option StmtKindData)
        → PartsAreAlike → WalkKeeps t.unit
        → EmbeddedAreCopied (whole_by t forms calls numbers w) es embedded
        → ItemsAreCopied (whole_by t forms calls numbers w) es embedded }
{}
