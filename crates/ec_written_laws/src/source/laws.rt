//! What holds of the trees of sources, as the contracts of functions that do nothing.

ghost use Rattle.std.specs.Prelude.{◌≡◌, ◌≤◌, Bool, true, false, List, length, Result, Ok};
ghost use Rattle.ec_base.specs.declared.stop.Stop.{Stop};
ghost use Rattle.ec_ctypes.specs.declared.text.piece.Piece.{Piece};
ghost use Rattle.ec_ctypes.specs.trees.Tokens.{TokenData};
ghost use Rattle.ec_ctypes.specs.trees.Units.{UnitData};
ghost use Rattle.ec_language.specs.First.{Reads, max_text};
ghost use Rattle.ec_language.specs.Letters.{Text, each};
ghost use Rattle.ec_language.specs.Pieces.{Pieces};
ghost use Rattle.ec_language.specs.Syntax.{TreeOrStop};
ghost use Rattle.ec_language.specs.Tokens.{Tokens};
ghost use Rattle.ec_written_laws.specs.source.SourceShape.{are_source_tokens, is_source_shape};
ghost use Rattle.ec_writing_defs.specs.Shapes.{is_byte};

/// The tree that the grammar derives of tokens has the shape of a source, if the tokens hold what tokens of a source hold.
pub fn derived_trees_have_source_shape()
    ensures { (ts : List TokenData) (u : UnitData) → are_source_tokens ts ≡ true
        → TreeOrStop ts (Ok u) → is_source_shape u ≡ true }
{}

/// The tokens of a source hold what they are to hold: names are words of C that are not left out, integers fit a type of
/// constants, characters and bytes are in range, `#include` lines are such lines by themselves, and lines are from 1 to
/// 999999999. So each tree that is read of a source has the shape of one.
pub fn sources_have_source_shape()
    ensures tokens { (text : Text) (pieces : List Piece) (ts : List TokenData)
        → each is_byte text ≡ true → length text ≤ max_text → Pieces text pieces
        → Tokens false pieces ts → are_source_tokens ts ≡ true }
    ensures trees { (text : Text) (u : UnitData) → each is_byte text ≡ true
        → Reads false text (Ok u) → is_source_shape u ≡ true }
{}
