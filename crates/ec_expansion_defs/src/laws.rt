//! What holds of written lines, as the contract of a function that does nothing.

ghost use Rattle.std.specs.Prelude.{◌≡◌, ℕ};
ghost use Rattle.ec_ctypes.specs.trees.Stmts.{StmtData};
ghost use Rattle.ec_ctypes.specs.trees.Units.{UnitData};
ghost use Rattle.ec_expansion_defs.specs.Lines.{line_after, line_after_tops};
ghost use Rattle.ec_writing_defs.specs.Chunks.{line_behind};
ghost use Rattle.ec_writing_defs.specs.Programs.{stmt_chunks, last_line};

/// The line behind a statement, and that behind a program, is the one to which its text leads.
pub fn lines_lead_behind()
    ensures statements { (s : StmtData) → (n : ℕ) → line_behind n (stmt_chunks s) ≡ line_after s }
    ensures programs { (u : UnitData) → last_line u ≡ line_after_tops 3 u.tops }
{}
