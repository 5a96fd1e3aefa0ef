use ec_base::{Bytes, Line};

/// What a piece of a source is.
#[derive(Clone, Copy, Debug, PartialEq, Eq)]
pub enum PieceKind {
    /// C text.
    C,
    /// An embedded statement.
    Emb,
    /// A declaration after `EXEC SQL`.
    InPlace,
    /// `EXEC SQL BEGIN DECLARE SECTION;`
    SectionStart,
    /// `EXEC SQL END DECLARE SECTION;`
    SectionEnd,
}

/// A piece of a source. The bytes of all pieces, joined, are the source.
#[derive(Debug, Drop)]
pub struct Piece {
    pub kind: PieceKind,
    pub bytes: Bytes,
    /// The line of its first byte.
    pub line: Line,
}
