use crate::types::Ty;
use ec_base::{Bytes, Line, Name};

/// A punctuation mark of C (ISO/IEC 9899:1999, 6.4.6).
#[derive(Clone, Copy, Debug, PartialEq, Eq)]
pub enum Punct {
    /// `->`
    Arrow,
    /// `++`
    PlusPlus,
    /// `--`
    MinusMinus,
    /// `<<=`
    ShlAssign,
    /// `>>=`
    ShrAssign,
    /// `<<`
    Shl,
    /// `>>`
    Shr,
    /// `<=`
    LessEqual,
    /// `>=`
    GreaterEqual,
    /// `==`
    EqualEqual,
    /// `!=`
    NotEqual,
    /// `&&`
    AndAnd,
    /// `||`
    OrOr,
    /// `+=`
    PlusAssign,
    /// `-=`
    MinusAssign,
    /// `*=`
    StarAssign,
    /// `/=`
    SlashAssign,
    /// `%=`
    PercentAssign,
    /// `&=`
    AndAssign,
    /// `|=`
    OrAssign,
    /// `^=`
    CaretAssign,
    /// `(`
    LeftParen,
    /// `)`
    RightParen,
    /// `[`
    LeftBracket,
    /// `]`
    RightBracket,
    /// `{`
    LeftBrace,
    /// `}`
    RightBrace,
    /// `;`
    Semicolon,
    /// `,`
    Comma,
    /// `.`
    Dot,
    /// `&`
    And,
    /// `*`
    Star,
    /// `+`
    Plus,
    /// `-`
    Minus,
    /// `~`
    Tilde,
    /// `!`
    Not,
    /// `/`
    Slash,
    /// `%`
    Percent,
    /// `<`
    Less,
    /// `>`
    Greater,
    /// `^`
    Caret,
    /// `|`
    Or,
    /// `=`
    Assign,
    /// `:`
    Colon,
}

/// What a token is.
#[derive(Debug, Drop)]
pub enum Tok {
    Word(Name),
    /// An integer constant: its value and its type.
    Int(u64, Ty),
    /// The value of a character constant.
    Char(i8),
    /// The bytes of a string literal, or of neighbours that are joined.
    Str(Bytes),
    Punct(Punct),
    /// The bytes of an `#include` line.
    Include(Bytes),
    /// An embedded statement: its number among the pieces of this kind, and whether it is executable.
    Emb(u32, bool),
    /// `EXEC SQL BEGIN DECLARE SECTION;`, or the start of a declaration after `EXEC SQL`.
    SectionStart,
    /// `EXEC SQL END DECLARE SECTION;`, or the end of a declaration after `EXEC SQL`.
    SectionEnd,
    /// The end of the text.
    End,
}

/// A token of C text (ISO/IEC 9899:1999, 6.4).
#[derive(Debug, Drop)]
pub struct Token {
    pub tok: Tok,
    pub line: Line,
    /// How many tokens stand before it.
    pub place: u32,
}
