//! What holds of the pieces of every text, as the contracts of functions that do nothing.

ghost use Rattle.std.specs.Prelude.{◌≡◌, ◌⊎◌, ℕ, List, Ok, Err};
ghost use Rattle.ec_base.specs.declared.fault.FaultKind.{FaultKind};
ghost use Rattle.ec_ctypes.specs.declared.text.piece.Piece.{Piece};
ghost use Rattle.ec_language.specs.Pieces.{Pieces};
ghost use Rattle.ec_language.specs.PieceFaults.{PieceFault};
ghost use Rattle.ec_language.specs.ReadPieces.{read_pieces};

/// A text is read as its pieces, or as its fault, and as nothing else.
pub fn pieces_are_read(text: &[u8])
    ensures read { (pieces : List Piece) → Pieces text.now pieces
        → read_pieces text.now ≡ Ok pieces }
    ensures are { (pieces : List Piece) → read_pieces text.now ≡ Ok pieces
        → Pieces text.now pieces }
    ensures refused { (kind : FaultKind) (line : ℕ) → PieceFault text.now kind line
        → read_pieces text.now ≡ Err (kind, line) }
    ensures fault { (kind : FaultKind) (line : ℕ) → read_pieces text.now ≡ Err (kind, line)
        → PieceFault text.now kind line }
{}

/// A text has either pieces or a fault, and only one of each.
pub fn one_splitting(text: &[u8])
    ensures pieces { (some : List Piece) (others : List Piece) → Pieces text.now some
        → Pieces text.now others → some ≡ others }
    ensures fault { (kind : FaultKind) (line : ℕ) (other : FaultKind) (at : ℕ)
        → PieceFault text.now kind line → PieceFault text.now other at
        → (kind ≡ other) × (line ≡ at) }
    ensures apart { (pieces : List Piece) (kind : FaultKind) (line : ℕ) → Pieces text.now pieces
        → PieceFault text.now kind line → ⊥ }
    ensures either { ((pieces : List Piece) × Pieces text.now pieces)
        ⊎ ((kind : FaultKind) × (line : ℕ) × PieceFault text.now kind line) }
{}
