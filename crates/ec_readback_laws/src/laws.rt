//! What holds of written C, as the contract of a function that does nothing.

ghost use Rattle.std.specs.Prelude.{◌≡◌, true, Result};
ghost use Rattle.ec_base.specs.declared.stop.Stop.{Stop};
ghost use Rattle.ec_ctypes.specs.trees.Units.{UnitData};
ghost use Rattle.ec_language.specs.First.{Reads, HasTree};
ghost use Rattle.ec_readback_laws.specs.ReadBack.{read_back, IsReadBack};
ghost use Rattle.ec_writing_defs.specs.Programs.{written_text};
ghost use Rattle.ec_writing_defs.specs.Shapes.{is_written_shape};

/// What is written of a program of the right shape is read as that program, or passes a limit: it has too many bytes or
/// tokens, or is too deep. With limits aside it is that program's text, and no other's.
pub fn written_programs_are_read_back()
    ensures read { (u : UnitData) → is_written_shape u ≡ true → (a : Result UnitData Stop)
        → Reads true (written_text u) a → IsReadBack u a }
    ensures aside { (u : UnitData) → is_written_shape u ≡ true
        → HasTree true (written_text u) (read_back u) }
    ensures alone { (u v : UnitData) → is_written_shape u ≡ true
        → HasTree true (written_text u) v → v ≡ read_back u }
{}
