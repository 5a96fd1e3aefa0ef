//! The lexer.
ghost use Rattle.std.specs.Prelude.{◌≡◌, ◌+◌, ◌-◌, ◌≤◌, ◌<◌, ◌^◌, ◌∷◌, ◌++◌, [], ℕ, true, false, codes, Some, None, Ok, Err, length, take, drop, map, max, option_map, OnOk, IfOk, List as Sequence, slice_index};
ghost use Rattle.ec_ctypes.specs.trees.Tokens as trees;
ghost use Rattle.ec_ctypes.specs.views.Tokens.{tok_view, token_view, tokens_view};
ghost use Rattle.ec_ctypes.specs.declared.text.piece.PieceKind.TheVariants as kinds;
ghost use Rattle.ec_language.specs.Letters as letters;
ghost use Rattle.ec_language.specs.Line as lines;
ghost use Rattle.ec_language.specs.SqlTokens as sql;
ghost use Rattle.ec_language.specs.Lexemes as lexemes;
ghost use Rattle.ec_language.specs.Tokens as tokens_of;
ghost use Rattle.ec_language.specs.Tokens.{Tokens};
ghost use Rattle.ec_language.specs.ReadTokens as read;
ghost use Rattle.ec_language.specs.Syntax.{EndsOnce};
ghost use Rattle.ec_language.specs.Pieces.{Pieces};
ghost use Rattle.ec_clex.specs.Answers as answers;
ghost use Rattle.ec_clex.specs.Items as items;
ghost use Rattle.ec_clex.specs.Lexing as lexing;

use crate::items::{Here, Item, item_at};
use crate::lines::fresh_after;
use crate::statements::{first_bad_line, is_executable};
use ec_base::{Bytes, FaultKind, LimitKind, Line, List, OutOfMemory, Stop};
use ec_ctypes::{Piece, PieceKind, Tok, Token};
use ec_split::scanning::bytes::{is_blank, newlines};
use ec_split::scanning::fronts::{behind_start, gap_stop};
use std::alloc::Global;

/// How many tokens there may be, the end not counted.
const MAX_TOKENS: usize = 4_194_304;

/// The tokens that are read, and where the next one stands.
#[derive(Drop)]
struct Lexer {
    tokens: List<Token>,
    /// Whether the two lines at the head of written C may still be passed over.
    head: bool,
    here: Here,
    /// How many embedded statements there are.
    statements: u32,
}

/// Whether the token is this `#include` line.
fn is_include_of(token: &Token, line: &[u8]) -> bool
    ensures { result ≡ tokens_of.is_include_of line.now (Ok (tok_view token.now.tok)) }
{
    match &token.tok {
        Tok::Include(bytes) => bytes.as_slice() == line,
        _ => false,
    }
}

/// Whether the tokens are the two lines at the head of written C.
fn is_head(tokens: &[Token]) -> bool
    ensures { result ≡ lexing.is_head (tokens_view tokens.now) }
{
    if tokens.len() != 2 {
        return false;
    }
    is_include_of(&tokens[0], b"#include <ecpglib.h>")
        && is_include_of(&tokens[1], b"#include <sqlca.h>")
}

/// Puts a token back, with the bytes behind its own if it is a string, and answers whether it is.
fn join_last(tokens: &mut List<Token>, last: Token, more: &[u8]) -> Result<bool, OutOfMemory>
    ensures joined { result ≡ Ok true
        → Some (tokens_view tokens.new) ≡ lexing.joined_last (tokens.old ++ last ∷ []) more.now }
    ensures same { result ≡ Ok false → (tokens.new ≡ tokens.old ++ last ∷ [])
        × (None ≡ lexing.joined_last (tokens.old ++ last ∷ []) more.now) }
{
    let Token { tok, line, place } = last;
    match tok {
        Tok::Str(mut bytes) => {
            bytes.extend_from_slice(more)?;
            tokens.push(Token {
                tok: Tok::Str(bytes),
                line,
                place,
            })?;
            Ok(true)
        }
        other => {
            tokens.push(Token {
                tok: other,
                line,
                place,
            })?;
            Ok(false)
        }
    }
}

/// Puts the bytes behind those of the last token, if it is a string, and answers whether it is.
fn join(tokens: &mut List<Token>, more: &[u8]) -> Result<bool, OutOfMemory>
    ensures joined { result ≡ Ok true
        → Some (tokens_view tokens.new) ≡ lexing.joined_last tokens.old more.now }
    ensures same { result ≡ Ok false → (tokens.new ≡ tokens.old)
        × (None ≡ lexing.joined_last tokens.old more.now) }
{
    match tokens.pop() {
        Some(last) => join_last(tokens, last, more),
        None => Ok(false),
    }
}

/// The index behind `EXEC SQL`.
pub fn behind(bytes: &[u8]) -> usize
    ensures is { drop result bytes.now ≡ read.text_behind_start bytes.now }
    ensures within { result ≤ length bytes.now }
{
    match behind_start(bytes, 0) {
        Some(end) => end,
        None => bytes.len(),
    }
}

impl Lexer {
    /// The tokens, with the end behind them.
    fn finish(self) -> Result<List<Token>, Stop>
        requires { length self.tokens < 2 ^ 32 }
        ensures { items.Told tokens_view result (Ok (lexing.with_end_token self.here.line
            (lexing.taken_of self))) }
    {
        let Lexer {
            mut tokens,
            here,
            ..
        } = self;
        let place = tokens.len() as u32;
        tokens.push(Token {
            tok: Tok::End,
            line: Line(here.line),
            place,
        })?;
        Ok(tokens)
    }

    /// Counts the lines of the bytes.
    fn pass(&mut self, bytes: &[u8])
        requires { self.old.here.line + length bytes.now < 2 ^ 32 }
        ensures line { self.new.here.line ≡ self.old.here.line + lines.newlines bytes.now }
        ensures most { self.new.here.line ≤ self.old.here.line + length bytes.now }
        ensures fresh { self.new.here.fresh ≡ lexemes.is_fresh_after self.old.here.fresh bytes.now }
        ensures taken { lexing.taken_of self.new ≡ lexing.taken_of self.old }
        ensures keeps { lexing.Keeps self.old self.new }
    {
        self.here.line += newlines(bytes) as u32;
        self.here.fresh = fresh_after(self.here.fresh, bytes);
    }

    /// Passes over the two lines at the head of written C, once they are read.
    fn pass_head(&mut self)
        ensures is { lexing.taken_of self.new
            ≡ lexing.past_head self.old.head (tokens_view self.old.tokens) }
        ensures here { self.new.here ≡ self.old.here }
        ensures keeps { lexing.Keeps self.old self.new }
    {
        if !self.head {
            return;
        }
        if self.tokens.len() != 2 {
            return;
        }
        self.head = false;
        if is_head(self.tokens.as_slice()) {
            self.tokens.clear();
        }
    }

    /// Puts a token behind the others.
    #[inline(always)]
    fn add(&mut self, tok: Tok) -> Result<(), Stop>
        ensures is { lexing.TellsTaken self.new result (
            lexing.added (lexing.taken_of self.old) self.old.here.line (tok_view tok)) }
        ensures here { self.new.here ≡ self.old.here }
        ensures keeps { lexing.Keeps self.old self.new }
    {
        let place = self.tokens.len();
        if place >= MAX_TOKENS {
            return Err(Stop::Limit(LimitKind::L2));
        }
        self.tokens.push(Token {
            tok,
            line: Line(self.here.line),
            place: place as u32,
        })?;
        self.pass_head();
        Ok(())
    }

    /// Puts the bytes of a string behind those of the last token, if that is one too, and answers
    /// whether it is.
    fn join(&mut self, more: &[u8]) -> Result<bool, OutOfMemory>
        ensures joined { result ≡ Ok true → (self.new.head ≡ self.old.head)
            × (Some (tokens_view self.new.tokens) ≡ lexing.joined_last self.old.tokens more.now) }
        ensures same { result ≡ Ok false
            → (lexing.taken_of self.new ≡ lexing.taken_of self.old)
            × (None ≡ lexing.joined_last self.old.tokens more.now) }
        ensures here { self.new.here ≡ self.old.here }
        ensures keeps { lexing.Keeps self.old self.new }
    {
        join(&mut self.tokens, more)
    }

    /// Takes the token of a string.
    fn push_string(&mut self, bytes: Bytes) -> Result<(), Stop>
        ensures is { lexing.TellsTaken self.new result (
            lexing.pushed (lexing.taken_of self.old) self.old.here.line
            (trees.string_token bytes)) }
        ensures here { self.new.here ≡ self.old.here }
        ensures keeps { lexing.Keeps self.old self.new }
    {
        if self.join(bytes.as_slice())? {
            return Ok(());
        }
        self.add(Tok::Str(bytes))
    }

    /// Takes a token. A string behind another is one with it.
    fn push(&mut self, tok: Tok) -> Result<(), Stop>
        ensures is { lexing.TellsTaken self.new result (
            lexing.pushed (lexing.taken_of self.old) self.old.here.line (tok_view tok)) }
        ensures here { self.new.here ≡ self.old.here }
        ensures keeps { lexing.Keeps self.old self.new }
    {
        match tok {
            Tok::Str(bytes) => self.push_string(bytes),
            other => self.add(other),
        }
    }

    /// Takes a token, if it is one.
    fn push_some(&mut self, tok: Option<Tok>) -> Result<(), Stop>
        ensures is { lexing.TellsTaken self.new result (
            lexing.pushed_some (lexing.taken_of self.old) self.old.here.line (items.some_tok tok)) }
        ensures here { self.new.here ≡ self.old.here }
        ensures keeps { lexing.Keeps self.old self.new }
    {
        match tok {
            Some(tok) => self.push(tok),
            None => Ok(()),
        }
    }

    /// Goes to behind what stands from the index on, which may say the number of the line there.
    fn go_behind(&mut self, text: &[u8], at: usize, end: usize, number: Option<u32>)
        requires order { at ≤ end }
        requires inside { end ≤ length text.now }
        requires fits { self.old.here.line + (end - at) < 2 ^ 32 }
        ensures is { lexing.mid_of self.new
            ≡ lexing.taken_at (lexing.mid_of self.old) text.now at end number }
        ensures late { self.new.here.line
            ≤ lexing.line_bound self.old.here.line number + (end - at) }
        ensures keeps { lexing.Keeps self.old self.new }
    {
        self.pass(&text[at..end]);
        if let Some(line) = number {
            self.here.line = line;
        }
    }

    /// Takes what stands at the index.
    fn take(&mut self, text: &[u8], at: usize, item: Item) -> Result<usize, Stop>
        requires order { at ≤ item.end }
        requires inside { item.end ≤ length text.now }
        requires fits { self.old.here.line + (item.end - at) < 2 ^ 32 }
        ensures is { lexing.TellsMidAt text.now self.new result (
            lexing.took (lexing.mid_of self.old) (items.item_view text.now at item)) }
        ensures end { IfOk result (λ end. end ≡ item.end) }
        ensures late { IfOk result (λ end. self.new.here.line
            ≤ lexing.line_bound self.old.here.line item.number + (end - at)) }
        ensures keeps { lexing.Keeps self.old self.new }
    {
        let Item { tok, number, end } = item;
        self.push_some(tok)?;
        self.go_behind(text, at, end, number);
        Ok(end)
    }

    /// Passes over a blank.
    fn blank(&mut self, byte: u8)
        requires blank { letters.is_blank byte ≡ true }
        requires fits { self.old.here.line + 1 < 2 ^ 32 }
        ensures is { lexing.mid_of self.new ≡ lexing.behind_blank (lexing.mid_of self.old) byte }
        ensures late { self.new.here.line ≤ self.old.here.line + 1 }
        ensures keeps { lexing.Keeps self.old self.new }
    {
        if byte == b'\n' {
            self.here.line += 1;
            self.here.fresh = true;
        }
    }

    /// Reads and takes what stands at the index.
    fn item(&mut self, alloc: Global, text: &[u8], at: usize) -> Result<usize, Stop>
        requires inside { at < length text.now }
        requires fits { max self.old.here.line (10 ^ 9) + (length text.now - at) < 2 ^ 32 }
        ensures is { lexing.TellsMidAt text.now self.new result (
            lexing.item_taken self.old.here.written (lexing.mid_of self.old) (drop at text.now)) }
        ensures within { IfOk result (λ end. (at + 1 ≤ end) × (end ≤ length text.now)) }
        ensures late { IfOk result (λ end. lexing.IsEarly self.old self.new (end - at)) }
        ensures keeps { lexing.Keeps self.old self.new }
    {
        if is_blank(text[at]) {
            self.blank(text[at]);
            return Ok(at + 1);
        }
        let item = item_at(alloc, self.here, text, at)?;
        self.take(text, at, item)
    }

    /// Takes the C text from the index on.
    fn c_text(&mut self, alloc: Global, text: &[u8], from: usize) -> Result<(), Stop>
        requires inside { from ≤ length text.now }
        requires small { length text.now ≤ 2 ^ 24 }
        requires early { self.old.here.line ≤ 2 ^ 31 }
        ensures is { lexing.TellsMid self.new result (
            lexing.c_rest self.old.here.written (lexing.mid_of self.old) (drop from text.now)) }
        ensures late { IfOk result
            (λ _. lexing.IsEarly self.old self.new (length text.now - from)) }
        ensures keeps { lexing.Keeps self.old self.new }
    {
        let mut at = from;
        while at < text.len() {
            match self.item(alloc, text, at) {
                Ok(end) => at = end,
                Err(stop) => return Err(stop),
            }
        }
        Ok(())
    }

    /// Takes the mark at the end of a declaration.
    fn close(&mut self, fresh: bool) -> Result<(), Stop>
        ensures is { lexing.TellsMid self.new result (
            lexing.closed_rest fresh (lexing.mid_of self.old)) }
        ensures late { IfOk result (λ _. self.new.here.line ≤ self.old.here.line) }
        ensures keeps { lexing.Keeps self.old self.new }
    {
        self.push(Tok::SectionEnd)?;
        self.here.fresh = fresh;
        Ok(())
    }

    /// Takes the C text of a declaration from the index on, and the mark at its end.
    fn inside(&mut self, alloc: Global, text: &[u8], from: usize, fresh: bool) -> Result<(), Stop>
        requires inside { from ≤ length text.now }
        requires small { length text.now ≤ 2 ^ 24 }
        requires early { self.old.here.line ≤ 2 ^ 31 }
        ensures is { lexing.TellsMid self.new result (
            lexing.inner_rest self.old.here.written fresh (lexing.mid_of self.old)
            (drop from text.now)) }
        ensures late { IfOk result
            (λ _. lexing.IsEarly self.old self.new (length text.now - from)) }
        ensures keeps { lexing.Keeps self.old self.new }
    {
        self.c_text(alloc, text, from)?;
        self.close(fresh)
    }

    /// Goes behind the front of a declaration. What stands there is not the first of its line.
    fn enter(&mut self, front: &[u8])
        requires { self.old.here.line + length front.now < 2 ^ 32 }
        ensures is { lexing.mid_of self.new ≡ lexing.entered self.old front.now }
        ensures most { self.new.here.line ≤ self.old.here.line + length front.now }
        ensures keeps { lexing.Keeps self.old self.new }
    {
        self.pass(front);
        self.here.fresh = false;
    }

    /// Takes a declaration after `EXEC SQL`: C text between two marks.
    fn declaration(&mut self, alloc: Global, bytes: &[u8]) -> Result<(), Stop>
        requires small { length bytes.now ≤ 2 ^ 24 }
        requires early { self.old.here.line ≤ 2 ^ 30 }
        requires source { self.old.here.written ≡ false }
        ensures is { lexing.TellsMid self.new result (
            lexing.declared_rest (lexing.mid_of self.old) bytes.now) }
        ensures late { IfOk result (λ _. lexing.IsEarly self.old self.new (length bytes.now)) }
        ensures keeps { lexing.Keeps self.old self.new }
    {
        let fresh = fresh_after(self.here.fresh, bytes);
        let from = gap_stop(bytes, behind(bytes));
        self.push(Tok::SectionStart)?;
        self.enter(&bytes[..from]);
        self.inside(alloc, bytes, from, fresh)
    }

    /// Takes an embedded statement. The first byte in it that begins no token is a fault.
    fn statement(&mut self, bytes: &[u8]) -> Result<(), Stop>
        requires small { length bytes.now ≤ 2 ^ 24 }
        requires early { self.old.here.line ≤ 2 ^ 30 }
        requires few { self.old.statements ≤ 2 ^ 24 }
        requires units { sql.StatementUnits bytes.now (read.statement_units bytes.now) }
        ensures is { lexing.TellsMid self.new result (
            lexing.stated_rest self.old.statements (lexing.mid_of self.old) bytes.now) }
        ensures late { IfOk result (λ _. self.new.here.line
            ≤ self.old.here.line + length bytes.now) }
        ensures written { self.new.here.written ≡ self.old.here.written }
        ensures count { IfOk result (λ _. self.new.statements ≡ self.old.statements + 1) }
    {
        let from = behind(bytes);
        self.push(Tok::Emb(self.statements, is_executable(bytes, from)))?;
        let first = self.here.line + newlines(&bytes[..from]) as u32;
        match first_bad_line(bytes, from, first) {
            Some(line) => Err(Stop::Refused(FaultKind::F4, Line(line))),
            None => {
                self.statements += 1;
                self.pass(bytes);
                Ok(())
            }
        }
    }

    /// Takes a mark of a section.
    fn section(&mut self, tok: Tok, bytes: &[u8]) -> Result<(), Stop>
        requires small { length bytes.now ≤ 2 ^ 24 }
        requires early { self.old.here.line ≤ 2 ^ 30 }
        ensures is { lexing.TellsMid self.new result (
            lexing.section_rest (tok_view tok) (lexing.mid_of self.old) bytes.now) }
        ensures late { IfOk result (λ _. self.new.here.line
            ≤ self.old.here.line + length bytes.now) }
        ensures keeps { lexing.Keeps self.old self.new }
    {
        self.push(tok)?;
        self.pass(bytes);
        Ok(())
    }

    /// Takes a piece that is not C text, of a source.
    fn embedded(&mut self, alloc: Global, kind: PieceKind, bytes: &[u8]) -> Result<(), Stop>
        requires small { length bytes.now ≤ 2 ^ 24 }
        requires early { self.old.here.line ≤ 2 ^ 30 }
        requires few { self.old.statements ≤ 2 ^ 24 }
        requires source { self.old.here.written ≡ false }
        requires units { lexing.HasUnits kind bytes.now }
        requires other { read.is_c kind ≡ false }
        ensures is { lexing.TellsMid self.new result (
            lexing.embedded_told kind self.old.statements (lexing.mid_of self.old) bytes.now) }
        ensures late { IfOk result (λ _. lexing.IsEarly self.old self.new (length bytes.now)) }
        ensures written { self.new.here.written ≡ self.old.here.written }
        ensures count { IfOk result (λ _. self.new.statements
            ≡ tokens_of.statements_behind self.old.statements kind) }
    {
        match kind {
            PieceKind::C => Ok(()),
            PieceKind::Emb => self.statement(bytes),
            PieceKind::InPlace => self.declaration(alloc, bytes),
            PieceKind::SectionStart => self.section(Tok::SectionStart, bytes),
            PieceKind::SectionEnd => self.section(Tok::SectionEnd, bytes),
        }
    }

    /// Takes a piece. Written C has nothing embedded in it.
    fn piece(&mut self, alloc: Global, piece: &Piece) -> Result<(), Stop>
        requires small { length piece.now.bytes ≤ 2 ^ 24 }
        requires early { self.old.here.line ≤ 2 ^ 30 }
        requires few { self.old.statements ≤ 2 ^ 24 }
        requires units { self.old.here.written ≡ false
            → lexing.HasUnits piece.now.kind piece.now.bytes }
        ensures is { lexing.TellsMid self.new result (
            lexing.piece_told self.old.here.written self.old.statements
            (lexing.mid_of self.old) piece.now) }
        ensures late { IfOk result
            (λ _. lexing.IsEarly self.old self.new (length piece.now.bytes)) }
        ensures written { self.new.here.written ≡ self.old.here.written }
        ensures count { IfOk result (λ _. self.new.statements
            ≡ tokens_of.statements_behind self.old.statements piece.now.kind) }
    {
        let bytes = piece.bytes.as_slice();
        if piece.kind == PieceKind::C {
            return self.c_text(alloc, bytes, 0);
        }
        if self.here.written {
            return Err(Stop::Refused(FaultKind::F9, Line(self.here.line)));
        }
        self.embedded(alloc, piece.kind, bytes)
    }
}

/// The tokens of pieces.
fn read_tokens(alloc: Global, pieces: &[Piece], written: bool) -> Result<List<Token>, Stop>
    requires small { lexing.total pieces.now ≤ 2 ^ 24 }
    requires few { length pieces.now ≤ 2 ^ 24 }
    requires units { lexing.AllUnits written pieces.now }
    ensures { items.Told tokens_view result (read.read_tokens written pieces.now) }
{
    let mut lexer = Lexer {
        tokens: List::new(alloc),
        head: written,
        here: Here {
            written,
            fresh: true,
            line: 1,
        },
        statements: 0,
    };
    for piece in pieces {
        match lexer.piece(alloc, piece) {
            Ok(()) => (),
            Err(stop) => return Err(stop),
        }
    }
    lexer.finish()
}

/// The tokens of the pieces of a source, or of written C.
pub fn tokens(alloc: Global, pieces: &List<Piece>, written: bool) -> Result<List<Token>, Stop>
    requires { (text : Sequence ℕ) × (length text ≤ 2 ^ 24) × Pieces text pieces.now }
    ensures tokens { IfOk result (λ tokens. Tokens written pieces.now (tokens_view tokens)) }
    ensures ends { IfOk result (λ tokens. EndsOnce (tokens_view tokens)) }
    ensures only { answers.FindsTokens written pieces.now result }
    ensures stop { answers.TellsStop written pieces.now result }
    ensures stops { answers.FindsStop written pieces.now result }
{
    read_tokens(alloc, pieces.as_slice(), written)
}
