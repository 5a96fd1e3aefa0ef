//! What holds of the functions of every source, as the contract of a function that does nothing.

ghost use Rattle.std.specs.Prelude.{ℕ, List, Option};
ghost use Rattle.ec_ctypes.specs.trees.Checked.{TypedData};
ghost use Rattle.ec_ctypes.specs.trees.Embedded.{EmbData};
ghost use Rattle.ec_ctypes.specs.trees.Stmts.{StmtKindData};
ghost use Rattle.ec_typing_defs.specs.Worlds.{World};
ghost use Rattle.ec_resolving_defs.specs.Storage.{LibraryCall, StatementForm};
ghost use Rattle.ec_sim_world_laws.specs.known.Laws.{WalkKeeps};
ghost use Rattle.ec_sim_program_laws.specs.program.Embedded.{EmbeddedAreCopied};
ghost use Rattle.ec_sim_program_laws.specs.program.Laws.{PartsAreAlike, FunctionsAreCopied, TopsAreCopied};
ghost use Rattle.ec_sim_program_laws.specs.program.Programs.{whole_by};

/// A function is resolved where it is written to a copy of what it is in the source, with the same parameters and objects, and
/// so are the items of a program one after the other; the checks find nothing wrong in them, wherever nothing is wrong with
/// the source, what holds is kept by the walk through it, and each embedded statement is copied.
#[tactic(none)]
pub fn written_functions_are_copied()
    ensures functions { (t : TypedData) (forms : List StatementForm) (calls : List LibraryCall)
        (numbers : List ℕ) (w : World) (es : List EmbData) (embedded : ℕ → Option StmtKindData)
        → PartsAreAlike → WalkKeeps t.unit
        → EmbeddedAreCopied (whole_by t forms calls numbers w) es embedded
        → FunctionsAreCopied (whole_by t forms calls numbers w) es embedded }
    ensures tops { (t : TypedData) (forms : List StatementForm) (calls : List LibraryCall)
        (numbers : List ℕ) (w : World) (es : List EmbData) (embedded : ℕ → Option StmtKindData)
        → PartsAreAlike → WalkKeeps t.unit
        → EmbeddedAreCopied (whole_by t forms calls numbers w) es embedded
        → TopsAreCopied (whole_by t forms calls numbers w) es embedded }
{}
