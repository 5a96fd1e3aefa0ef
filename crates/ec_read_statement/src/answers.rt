//! What a statement is, or why it is none.

ghost use Rattle.std.specs.Prelude.{◌≡◌, ◌+◌, ◌<◌, ◌^◌, List as Sequence, Result as Answer, Err, length};
ghost use Rattle.ec_base.specs.declared.stop.Stop.{Stop as TheStop};
ghost use Rattle.ec_clex.specs.Items.{Told};
ghost use Rattle.ec_clex.specs.Sql.{sql_views};
ghost use Rattle.ec_ctypes.specs.trees.Embedded.{EmbData};
ghost use Rattle.ec_ctypes.specs.views.Embedded.{emb_kind_view, emb_view, text_arg_view};
ghost use Rattle.ec_embedded.specs.Answers.{StatementOrStop, placed};
ghost use Rattle.ec_language.specs.SqlTokens.{SqlToken as Token};
ghost use Rattle.ec_language.specs.Tokens.{SqlTokens, SqlTokensOrStop};
ghost use Rattle.ec_read_statement.specs.Answers as spec;
ghost use Rattle.ec_read_statement.specs.Answers.{IsRead};
ghost use Rattle.ec_references.specs.States.{CursorReads, seen};
ghost use Rattle.ec_embedded.specs.shapes.ReadShapes.{last};
ghost use Rattle.ec_statement_readers.specs.Readers as form;

use crate::kinds::any_statement;
use crate::left_out::{is_first, is_left_out};
use ec_base::{Boxed, FaultKind, LimitKind, Line, Stop, beside};
use ec_clex::{SqlToken, sql_tokens};
use ec_ctypes::{Emb, EmbKind, Piece, TextArg};
use ec_embedded::shapes::Failure;
use ec_references::{Cursor, is_any_word};
use ec_split::scanning::bytes::newlines;
use ec_statement_readers::at_name;
use std::alloc::Global;

/// The line of the first token, or that of the `;`.
fn first_line(tokens: &[SqlToken<'_>], end: Line) -> Line
    ensures { result ≡ spec.first_line end.0 (sql_views tokens.now) }
{
    match tokens {
        [first, ..] => first.line,
        [] => end,
    }
}

/// The line of the first of the last tokens, so many.
fn last_line(tokens: &[SqlToken<'_>], left: usize, end: Line) -> Line
    ensures { result ≡ spec.first_line end.0 (last left (sql_views tokens.now)) }
{
    let from = tokens.len().saturating_sub(left);
    first_line(&tokens[from..], end)
}

/// The line of the first word, or that of the `;`.
fn first_word_line(tokens: &[SqlToken<'_>], end: Line) -> Line
    ensures { result ≡ spec.first_word_line end.0 (sql_views tokens.now) }
{
    let mut left = tokens;
    while let [token, rest @ ..] = left {
        if is_any_word(token) {
            return token.line;
        }
        left = rest;
    }
    end
}

/// Why the tokens of a statement have no tree.
fn stop_of(tokens: &[SqlToken<'_>], end: Line, failure: Failure) -> Stop
    ensures { result ≡ spec.stop_of end.0 (sql_views tokens.now) failure }
{
    match failure {
        Failure::Dead(left) => Stop::Refused(FaultKind::F8, last_line(tokens, left, end)),
        Failure::OverLimit(_) => Stop::Limit(LimitKind::L4),
        Failure::OutOfMemory => Stop::OutOfMemory,
    }
}

/// What was got from the tokens, where none of them is left.
fn whole<T: Drop>(
    tokens: &[SqlToken<'_>],
    left: &[SqlToken<'_>],
    end: Line,
    got: Result<T, Failure>,
) -> Result<T, Stop>
    ensures { result ≡ spec.whole_of end.0 (sql_views tokens.now) (sql_views left.now) got }
{
    match got {
        Ok(value) => match left {
            [] => Ok(value),
            [first, ..] => Err(Stop::Refused(FaultKind::F8, first.line)),
        },
        Err(failure) => Err(stop_of(tokens, end, failure)),
    }
}

/// What is done by the tokens that are left, to their end, or why nothing is.
fn whole_statement(
    alloc: Global,
    cursor: &mut Cursor<'_>,
    end: Line,
    is_at: bool,
) -> Result<EmbKind, Stop>
    ensures { Told emb_kind_view result
        (spec.kind_answer end.0 is_at (seen cursor.old).counts (seen cursor.old).tokens) }
{
    let left = cursor.rest();
    if is_left_out(left) {
        return Err(Stop::Refused(FaultKind::F9, first_word_line(left, end)));
    }
    let got = any_statement(alloc, cursor, is_at);
    whole(left, cursor.rest(), end, got)
}

/// The connection that AT names.
fn named(alloc: Global, cursor: &mut Cursor<'_>) -> Result<Boxed<TextArg>, Failure>
    ensures { CursorReads text_arg_view form.at_name cursor.old result cursor.new }
{
    let at = at_name(alloc, cursor)?;
    Ok(Boxed::new(alloc, at)?)
}

/// A statement with no AT before it.
#[inline(always)]
fn alone(
    alloc: Global,
    tokens: &[SqlToken<'_>],
    end: Line,
    line: Line,
    place: u32,
) -> Result<Emb, Stop>
    ensures { Told emb_view result (placed line place (spec.alone end.0 (sql_views tokens.now))) }
{
    let mut cursor = Cursor::new(tokens);
    let kind = whole_statement(alloc, &mut cursor, end, false)?;
    Ok(Emb {
        line,
        place,
        at: None,
        kind,
    })
}

/// A statement with AT before it.
#[inline(never)]
fn behind_at(
    alloc: Global,
    tokens: &[SqlToken<'_>],
    end: Line,
    line: Line,
    place: u32,
) -> Result<Emb, Stop>
    ensures { Told emb_view result
        (placed line place (spec.behind_at end.0 (sql_views tokens.now))) }
{
    let mut cursor = Cursor::new(tokens);
    match named(alloc, &mut cursor) {
        Ok(at) => {
            let (at, kind) = beside(at, whole_statement(alloc, &mut cursor, end, true))?;
            Ok(Emb {
                line,
                place,
                at: Some(at),
                kind,
            })
        }
        Err(failure) => Err(stop_of(tokens, end, failure)),
    }
}

/// The statement of these tokens, whose `;` stands on the line `end`.
#[inline(always)]
#[tactic(auto, unfolding(crate::specs::Answers::answered))]
fn statement(
    alloc: Global,
    tokens: &[SqlToken<'_>],
    end: Line,
    line: Line,
    place: u32,
) -> Result<Emb, Stop>
    ensures { Told emb_view result
        (placed line place (spec.answered end.0 (sql_views tokens.now))) }
{
    if is_first(tokens, b"AT") {
        return behind_at(alloc, tokens, end, line, place);
    }
    alone(alloc, tokens, end, line, place)
}

/// Reads the statement of a piece, whose token has this place (PostgreSQL manual, "Embedded SQL Commands").
///
/// With the first token with which no form goes on, or the `;` that comes too soon, it is a fault (F8) on the line of
/// that token; a statement that is left out is one (F9) on the line of its first word. The limits on inputs and suffixes
/// (L4) come in the order of the tokens with F8. A byte that begins no token is a fault (F4) before all these.
pub fn read_statement(alloc: Global, piece: &Piece, place: u32) -> Result<Emb, Stop>
    requires { piece.now.line.0 + length piece.now.bytes < 2 ^ 32 }
    ensures statement { (wanted : Answer EmbData TheStop) → StatementOrStop piece.now place wanted
        → Told emb_view result wanted }
    ensures answer { (tokens : Sequence Token)
        → SqlTokens piece.now.line.0 piece.now.bytes tokens → IsRead piece.now place result }
    ensures no_tokens { (stop : TheStop)
        → SqlTokensOrStop piece.now.line.0 piece.now.bytes (Err stop)
        → Told emb_view result (Err stop) }
{
    match sql_tokens(alloc, piece) {
        Ok(tokens) => {
            let lines = newlines(piece.bytes.as_slice());
            let end = Line(piece.line.0 + lines as u32);
            statement(alloc, tokens.as_slice(), end, piece.line, place)
        }
        Err(stop) => Err(stop),
    }
}
