//! What holds of every program, as the contract of a function that does nothing.

ghost use Rattle.std.specs.Prelude.{◌≡◌, ℕ, false, [], Option};
ghost use Rattle.ec_ctypes.specs.trees.Checked.{TypedData};
ghost use Rattle.ec_ctypes.specs.trees.Stmts.{StmtKindData};
ghost use Rattle.ec_typing_defs.specs.Answers.{violations};
ghost use Rattle.ec_sim_world_laws.specs.known.Laws.{WalkKeeps};
ghost use Rattle.ec_sim_program_laws.specs.program.Embedded.{EmbeddedAreCopied};
ghost use Rattle.ec_sim_program_laws.specs.program.Laws.{PartsAreAlike};
ghost use Rattle.ec_sim_program_laws.specs.program.Programs.{written_of, whole_of, blocks_in, IsWrittenCopy};
ghost use Rattle.ec_sim_program_laws.specs.program.Shape.{TopsStand};

/// The program that is written for a source has no violation and is resolved to a copy of the source, wherever the source has
/// none, statements stand in it as the grammar has them, what holds is kept by the walk through it, and each embedded statement
/// is copied.
#[tactic(none)]
pub fn written_programs_are_copies()
    ensures { (t : TypedData) (embedded : ℕ → Option StmtKindData)
        → TopsStand t.unit.embs t.unit.tops → violations false t.unit ≡ [] → PartsAreAlike
        → WalkKeeps t.unit
        → EmbeddedAreCopied (whole_of (blocks_in t (written_of embedded t.unit)) t.unit
        (written_of embedded t.unit)) t.unit.embs embedded
        → IsWrittenCopy (blocks_in t (written_of embedded t.unit)) t.unit
        (written_of embedded t.unit) }
{}
