//! How pieces and tokens are printed: each on a line, which begins with the number of its line in the text.

use crate::printer::Printer;
use ec_base::{List, OutOfMemory};
use ec_clex::{SqlClass, SqlToken};
use ec_ctypes::{Piece, PieceKind, Tok, Token};

impl Printer {
    /// Prints pieces.
    pub fn pieces(&mut self, pieces: &List<Piece>) -> Result<(), OutOfMemory> {
        for piece in pieces.as_slice() {
            self.line(piece.line)?;
            self.atom(match piece.kind {
                PieceKind::C => "c",
                PieceKind::Emb => "statement",
                PieceKind::InPlace => "declaration",
                PieceKind::SectionStart => "open",
                PieceKind::SectionEnd => "close",
            })?;
            self.quoted(piece.bytes.as_slice())?;
            self.end_line()?;
        }
        Ok(())
    }

    /// Prints a token.
    pub fn token(&mut self, token: &Token) -> Result<(), OutOfMemory> {
        self.line(token.line)?;
        self.number(u64::from(token.place))?;
        self.tok(&token.tok)?;
        self.end_line()
    }

    // Prints what a token is.
    fn tok(&mut self, tok: &Tok) -> Result<(), OutOfMemory> {
        match tok {
            Tok::Word(word) => {
                self.atom("word")?;
                self.name(word.as_slice())
            }
            Tok::Int(value, ty) => self.integer(*value, ty),
            Tok::Char(value) => self.character(*value),
            Tok::Str(bytes) => self.string(bytes),
            Tok::Punct(mark) => {
                self.atom("mark")?;
                self.atom(mark.text())
            }
            Tok::Include(bytes) => {
                self.atom("include")?;
                self.quoted(bytes.as_slice())
            }
            Tok::Emb(number, executable) => {
                self.atom(if *executable {
                    "executable"
                } else {
                    "directive"
                })?;
                self.number(u64::from(*number))
            }
            Tok::SectionStart => self.atom("open"),
            Tok::SectionEnd => self.atom("close"),
            Tok::End => self.atom("end"),
        }
    }

    /// Prints the tokens of an embedded statement, each two blanks further in.
    pub fn sql_tokens(&mut self, tokens: &List<SqlToken<'_>>) -> Result<(), OutOfMemory> {
        for token in tokens.as_slice() {
            self.plain(b"  ")?;
            self.line(token.line)?;
            self.atom(if token.gap { "gap" } else { "-" })?;
            self.atom(match token.class {
                SqlClass::Word => "word",
                SqlClass::Number => "number",
                SqlClass::Quoted => "quoted",
                SqlClass::Mark => "mark",
            })?;
            self.quoted(token.bytes)?;
            self.end_line()?;
        }
        Ok(())
    }
}
