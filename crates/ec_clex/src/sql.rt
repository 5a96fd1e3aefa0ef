//! The tokens of an embedded statement.
ghost use Rattle.std.specs.Prelude.{◌≡◌, ◌+◌, ◌-◌, ◌≤◌, ◌<◌, ◌^◌, ◌∷◌, ◌++◌, [], ℕ, List as Sequence, Result as Answer, true, false, codes, length, take, drop, IfOk, IfSome};
ghost use Rattle.ec_language.specs.Letters as letters;
ghost use Rattle.ec_language.specs.Line as lines;
ghost use Rattle.ec_language.specs.SqlTokens as sql;
ghost use Rattle.ec_base.specs.declared.stop.Stop.{Stop as TheStop};
ghost use Rattle.ec_language.specs.Tokens.{SqlTokensOrStop, sql_answer};
ghost use Rattle.ec_language.specs.ReadPieces as read;
ghost use Rattle.ec_language.specs.ReadTokens.{sql_units, text_behind_start};
ghost use Rattle.ec_clex.specs.Items.{Told};
ghost use Rattle.ec_clex.specs.Sql as view;

use crate::lexer::behind;
use ec_base::{FaultKind, Line, List, OutOfMemory, Stop};
use ec_ctypes::Piece;
use ec_split::scanning::bytes::{
    ByteClass, begins_two, behind_all, is_blank, is_plain_word_start, is_quote, is_single,
    is_sql_word_start, newlines,
};
use ec_split::scanning::ends::End;
use ec_split::scanning::units::{begins_escaped, begins_gap, begins_number, sql_end};
use std::alloc::Global;

/// What a token of an embedded statement is.
#[derive(Clone, Copy, Debug, PartialEq, Eq)]
pub enum SqlClass {
    Word,
    Number,
    /// In `'` or `"`, with the quotes.
    Quoted,
    /// `::`, `->` or one byte.
    Mark,
}

/// A token of an embedded statement.
#[derive(Clone, Copy, Debug)]
pub struct SqlToken<'a> {
    /// Its bytes, as they stand in the statement.
    pub bytes: &'a [u8],
    pub line: Line,
    pub class: SqlClass,
    /// Whether blanks or comments stand between it and what stands before it.
    pub gap: bool,
}

/// The tokens that are read, and what is known of the next one.
#[derive(Drop)]
struct SqlLexer<'a> {
    tokens: List<SqlToken<'a>>,
    gap: bool,
    line: u32,
}

/// What the unit is that stands at the index, if it is no gap and no escaped quote.
fn class_at(text: &[u8], at: usize) -> SqlClass
    requires { at < length text.now }
    ensures { view.class_view result ≡ view.first_class (drop at text.now) }
{
    if is_sql_word_start(text[at]) {
        return SqlClass::Word;
    }
    if begins_number(text, at) {
        return SqlClass::Number;
    }
    if is_quote(text[at]) {
        return SqlClass::Quoted;
    }
    SqlClass::Mark
}

/// Whether a mark of two bytes stands at the index.
fn begins_pair(text: &[u8], at: usize) -> bool
    requires { at ≤ length text.now }
    ensures is { result ≡ view.begins_pair (drop at text.now) }
    ensures fits { result ≡ true → at + 2 ≤ length text.now }
{
    if begins_two(text, at, b':', b':') {
        return true;
    }
    begins_two(text, at, b'-', b'>')
}

/// Whether `::` stands at the index. Most bytes tell at once that it doesn't.
#[inline(always)]
fn begins_colons(text: &[u8], at: usize) -> bool
    requires { at < length text.now }
    ensures { result ≡ letters.begins_with (codes "::") (drop at text.now) }
{
    text[at] == b':' && begins_two(text, at, b':', b':')
}

/// Whether the byte begins no token.
fn is_bad_byte(byte: u8) -> bool
    ensures { result ≡ view.is_bad_byte byte }
{
    byte == 0 || byte == b'$'
}

/// A token in which no newline stands.
#[derive(Clone, Copy)]
struct Flat {
    class: SqlClass,
    /// The index behind it.
    end: usize,
}

/// The token that stands at the index, if its first bytes tell that it is a word or a mark.
#[inline(always)]
fn flat_at(text: &[u8], at: usize) -> Option<Flat>
    requires inside { at < length text.now }
    requires solid { view.begins_blank (drop at text.now) ≡ false }
    ensures is { IfSome result (λ found. view.IsFlat (drop at text.now) (drop found.end text.now)
        found.class) }
    ensures within { IfSome result (λ found. (at + 1 ≤ found.end)
        × (found.end ≤ length text.now)) }
{
    let byte = text[at];
    if is_plain_word_start(byte) {
        return Some(Flat {
            class: SqlClass::Word,
            end: behind_all(ByteClass::SqlWord, text, at + 1),
        });
    }
    if is_single(byte) && !begins_colons(text, at) {
        return Some(Flat {
            class: SqlClass::Mark,
            end: at + 1,
        });
    }
    if is_sql_word_start(byte) && !begins_escaped(text, at) {
        return Some(Flat {
            class: SqlClass::Word,
            end: behind_all(ByteClass::SqlWord, text, at + 1),
        });
    }
    None
}

/// How many newlines the byte is.
fn lines_in(byte: u8) -> u32
    ensures is { result ≡ lines.newlines (byte ∷ []) }
    ensures most { result ≤ 1 }
{
    if byte == b'\n' {
        return 1;
    }
    0
}

/// For how many tokens room is made at first, in a statement of so many bytes.
fn room_for(length: usize) -> usize {
    if length < 114 {
        return 4 + length / 3;
    }
    42
}

impl<'a> SqlLexer<'a> {
    /// Puts a token of these bytes behind the others, and counts no lines.
    #[inline(always)]
    fn put(&mut self, class: SqlClass, bytes: &'a [u8]) -> Result<(), OutOfMemory>
        ensures tokens { IfOk result (λ _. view.sql_views self.new.tokens
            ≡ view.sql_views self.old.tokens ++ view.next_token self.old class bytes.now ∷ []) }
        ensures gap { IfOk result (λ _. self.new.gap ≡ false) }
        ensures line { IfOk result (λ _. self.new.line ≡ self.old.line) }
    {
        self.tokens.push(SqlToken {
            bytes,
            line: Line(self.line),
            class,
            gap: self.gap,
        })?;
        self.gap = false;
        Ok(())
    }

    /// Puts a token of these bytes behind the others.
    #[inline(never)]
    fn push(&mut self, class: SqlClass, bytes: &'a [u8]) -> Result<(), OutOfMemory>
        requires { self.old.line + length bytes.now < 2 ^ 32 }
        ensures tokens { IfOk result (λ _. view.sql_views self.new.tokens
            ≡ view.sql_views self.old.tokens ++ view.next_token self.old class bytes.now ∷ []) }
        ensures gap { IfOk result (λ _. self.new.gap ≡ false) }
        ensures line { IfOk result (λ _. self.new.line ≡ self.old.line + lines.newlines bytes.now) }
        ensures most { IfOk result (λ _. self.new.line ≤ self.old.line + length bytes.now) }
    {
        self.put(class, bytes)?;
        self.line += newlines(bytes) as u32;
        Ok(())
    }

    /// Takes the token that stands there, in which no newline stands.
    #[inline(always)]
    fn flat(&mut self, text: &'a [u8], at: usize, found: Flat) -> Result<(), OutOfMemory>
        requires order { at + 1 ≤ found.end }
        requires inside { found.end ≤ length text.now }
        requires flat { view.IsFlat (drop at text.now) (drop found.end text.now) found.class }
        ensures all { IfOk result (λ _. view.all_tokens self.new (drop found.end text.now)
            ≡ view.all_tokens self.old (drop at text.now)) }
        ensures good { IfOk result (λ _. view.bad_line self.new (drop found.end text.now)
            ≡ view.bad_line self.old (drop at text.now)) }
        ensures line { IfOk result (λ _. self.new.line ≡ self.old.line) }
    {
        self.put(found.class, &text[at..found.end])?;
        Ok(())
    }

    /// Passes over a blank.
    #[inline(always)]
    fn blank(&mut self, text: &[u8], at: usize)
        requires fits { self.old.line + 1 < 2 ^ 32 }
        requires inside { at < length text.now }
        requires blank { view.begins_blank (drop at text.now) ≡ true }
        ensures all { view.all_tokens self.new (drop (at + 1) text.now)
            ≡ view.all_tokens self.old (drop at text.now) }
        ensures good { view.bad_line self.new (drop (at + 1) text.now)
            ≡ view.bad_line self.old (drop at text.now) }
        ensures most { self.new.line ≤ self.old.line + 1 }
    {
        self.gap = true;
        self.line += lines_in(text[at]);
    }

    /// Passes over a gap.
    fn pass(&mut self, bytes: &[u8])
        requires { self.old.line + length bytes.now < 2 ^ 32 }
        ensures tokens { self.new.tokens ≡ self.old.tokens }
        ensures gap { self.new.gap ≡ true }
        ensures line { self.new.line ≡ self.old.line + lines.newlines bytes.now }
        ensures most { self.new.line ≤ self.old.line + length bytes.now }
    {
        self.gap = true;
        self.line += newlines(bytes) as u32;
    }

    /// Takes the word `E` and the quote behind it.
    fn escaped(&mut self, text: &'a [u8], at: usize, end: usize) -> Result<(), OutOfMemory>
        requires order { at + 1 ≤ end }
        requires inside { end ≤ length text.now }
        requires fits { self.old.line + (end - at) < 2 ^ 32 }
        requires more { read.begins_semicolon (drop at text.now) ≡ false }
        requires behind { read.passed (drop end text.now) ≡ read.sql_end (drop at text.now) }
        requires solid { read.begins_gap (drop at text.now) ≡ false }
        requires escaped { read.begins_escaped (drop at text.now) ≡ true }
        ensures line { IfOk result (λ _. self.new.line
            ≡ self.old.line + lines.newlines (take (end - at) (drop at text.now))) }
        ensures all { IfOk result (λ _. view.all_tokens self.new (drop end text.now)
            ≡ view.all_tokens self.old (drop at text.now)) }
        ensures most { IfOk result (λ _. self.new.line ≤ self.old.line + (end - at)) }
    {
        self.push(SqlClass::Word, &text[at..at + 1])?;
        self.push(SqlClass::Quoted, &text[at + 1..end])?;
        Ok(())
    }

    /// Takes the unit that stands there, and answers where the next one stands.
    fn unit(&mut self, text: &'a [u8], at: usize, end: usize) -> Result<usize, OutOfMemory>
        requires order { at + 1 ≤ end }
        requires inside { end ≤ length text.now }
        requires fits { self.old.line + (length text.now - at) < 2 ^ 32 }
        requires more { read.begins_semicolon (drop at text.now) ≡ false }
        requires behind { read.passed (drop end text.now) ≡ read.sql_end (drop at text.now) }
        requires good { view.begins_bad (drop at text.now) ≡ false }
        ensures good { IfOk result (λ next. view.bad_line self.new (drop next text.now)
            ≡ view.bad_line self.old (drop at text.now)) }
        ensures all { IfOk result (λ next. view.all_tokens self.new (drop next text.now)
            ≡ view.all_tokens self.old (drop at text.now)) }
        ensures within { IfOk result (λ next. (at + 1 ≤ next) × (next ≤ length text.now)) }
        ensures most { IfOk result (λ next. self.new.line ≤ self.old.line + (next - at)) }
    {
        if begins_gap(text, at) {
            self.pass(&text[at..end]);
            return Ok(end);
        }
        if begins_escaped(text, at) {
            self.escaped(text, at, end)?;
            return Ok(end);
        }
        if begins_pair(text, at) {
            self.push(SqlClass::Mark, &text[at..at + 2])?;
            return Ok(at + 2);
        }
        self.push(class_at(text, at), &text[at..end])?;
        Ok(end)
    }
}

/// The tokens of the units that stand from the index on, the first of which stands on this line,
/// or the fault of the first byte that begins none.
#[inline(never)]
#[tactic(auto, using(crate::proofs::FlatTokens::bad_told, crate::proofs::FlatTokens::all_told))]
fn tokens_from<'a>(
    alloc: Global,
    text: &'a [u8],
    from: usize,
    line: u32,
) -> Result<List<SqlToken<'a>>, Stop>
    requires inside { from ≤ length text.now }
    requires fits { line + (length text.now - from) < 2 ^ 32 }
    ensures { Told view.sql_views result (sql_answer line (sql_units (drop from text.now))) }
{
    let mut lexer = SqlLexer {
        tokens: List::with_capacity(alloc, room_for(text.len()))?,
        gap: false,
        line,
    };
    let mut at = from;
    while at < text.len() {
        let byte = text[at];
        if is_blank(byte) {
            lexer.blank(text, at);
            at += 1;
            continue;
        }
        if let Some(found) = flat_at(text, at) {
            lexer.flat(text, at, found)?;
            at = found.end;
            continue;
        }
        if byte == b';' {
            return Ok(lexer.tokens);
        }
        if is_bad_byte(byte) {
            return Err(Stop::Refused(FaultKind::F4, Line(lexer.line)));
        }
        match sql_end(text, at) {
            End::Passed(end) => at = lexer.unit(text, at, end)?,
            End::Cut(_) => return Ok(lexer.tokens),
            End::Endless => return Ok(lexer.tokens),
        }
    }
    Ok(lexer.tokens)
}

/// The tokens of an embedded statement, in order. The first byte that begins none is a fault (F4)
/// on its line.
pub fn sql_tokens<'a>(alloc: Global, piece: &'a Piece) -> Result<List<SqlToken<'a>>, Stop>
    requires { piece.now.line.0 + length piece.now.bytes < 2 ^ 32 }
    ensures { (answer : Answer (Sequence sql.SqlToken) TheStop)
        → SqlTokensOrStop piece.now.line.0 piece.now.bytes answer
        → Told view.sql_views result answer }
{
    let text = piece.bytes.as_slice();
    let from = behind(text);
    let line = piece.line.0 + newlines(&text[..from]) as u32;
    tokens_from(alloc, text, from, line)
}
