//! What holds of written programs, as the contracts of functions that do nothing.

ghost use Rattle.std.specs.Prelude.{◌≡◌, ℕ, true, List, Option};
ghost use Rattle.ec_ctypes.specs.trees.Checked.{MarkData, BoundData};
ghost use Rattle.ec_ctypes.specs.trees.Embedded.{EmbData};
ghost use Rattle.ec_ctypes.specs.trees.Stmts.{StmtKindData};
ghost use Rattle.ec_ctypes.specs.trees.Units.{UnitData};
ghost use Rattle.ec_expansion_defs.specs.Programs.{unit_of, block_for};
ghost use Rattle.ec_expansion_defs.specs.Statements.{written_tops};
ghost use Rattle.ec_written_laws.specs.source.Kept.{written, is_kept};
ghost use Rattle.ec_written_laws.specs.source.SourceShape.{is_source_shape};
ghost use Rattle.ec_typing_defs.specs.statement_parts.Handlers.{action_among};
ghost use Rattle.ec_writing_defs.specs.Shapes.{is_line, is_written_shape};
ghost use Rattle.ec_written_laws.specs.written.Blocks.{IsBlockOption};
ghost use Rattle.ec_written_laws.specs.written.Bounds.{
  are_written_actions,
  is_written_statement,
  are_written_statements,
  is_written_bound,
};

/// What is written of a program of the shape of a source has the written shape, if the program keeps what written C asks,
/// and what stands in the place of each embedded statement has that shape.
pub fn expanded_programs_have_written_shape()
    ensures { (u : UnitData) (embedded : ℕ → Option StmtKindData)
        → is_source_shape u ≡ true → is_kept written u ≡ true
        → ((n : ℕ) → IsBlockOption (embedded n))
        → is_written_shape (unit_of (written_tops embedded u.tops)) ≡ true }
{}

/// What stands in the place of an embedded statement has that shape, if the texts and hosts that are bound for it can be
/// written on its line, and the actions that hold there too.
pub fn blocks_have_written_shape()
    ensures { (handlers : List MarkData) (es : List EmbData) (n : ℕ) (e : EmbData) (b : BoundData)
        → is_line e.line.0 ≡ true
        → are_written_actions e.line.0 (action_among handlers e.place) ≡ true
        → are_written_statements es ≡ true → is_written_statement e.kind ≡ true
        → is_written_bound e.line.0 b ≡ true
        → IsBlockOption (block_for handlers es n e b) }
{}
