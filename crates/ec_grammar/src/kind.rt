use ec_ctypes::Punct;

/// What a token is to the grammar: its punctuation mark, its keyword, or its class.
#[derive(Clone, Copy, Debug, PartialEq, Eq)]
pub enum Kind {
    Mark(Punct),
    Static,
    Const,
    Struct,
    If,
    Else,
    While,
    Do,
    For,
    Break,
    Continue,
    Return,
    Goto,
    Sizeof,
    /// A word that names a type.
    TypeWord,
    /// `VARCHAR` or `varchar`.
    Varchar,
    /// A word that is no keyword.
    Name,
    Integer,
    Character,
    Text,
    Include,
    /// An embedded statement that is executed.
    Executable,
    /// An embedded statement that is a directive.
    Directive,
    /// The start of a declare section.
    Opening,
    /// The end of a declare section.
    Closing,
    End,
}
