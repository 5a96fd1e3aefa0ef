//! The embedded statements of a source.

ghost use Rattle.std.specs.Prelude.{◌≡◌, ◌+◌, ◌<◌, ◌^◌, ◌++◌, [], length, IfOk, OnOk};
ghost use Rattle.ec_ctypes.specs.views.Tokens.{token_view, tokens_view};
ghost use Rattle.ec_host_defs.specs.Statements as spec;
ghost use Rattle.ec_language.specs.Tokens.{HasSqlTokens, HaveSqlTokens};
ghost use Rattle.ec_phases_defs.specs.Laws.{statement_count};
ghost use Rattle.ec_front.specs.source.Answers.{HaveLines, AddsStatement, TellsStatements};

use ec_base::{List, OutOfMemory, Stop};
use ec_ctypes::{Emb, Piece, PieceKind, Tok, Token};
use ec_read_statement::read_statement;
use std::alloc::Global;

// Whether a piece of this kind is an embedded statement.
fn is_statement(kind: PieceKind) -> bool
    ensures { result ≡ spec.is_statement kind }
{
    match kind {
        PieceKind::Emb => true,
        PieceKind::C => false,
        PieceKind::InPlace => false,
        PieceKind::SectionStart => false,
        PieceKind::SectionEnd => false,
    }
}

// The place of a token behind the others, if it is an embedded statement.
fn add_place(places: &mut List<u32>, token: &Token) -> Result<(), OutOfMemory>
    ensures { OnOk result (places.new ≡ places.old ++ spec.place_of (token_view token.now) []) }
{
    match &token.tok {
        Tok::Emb(_, _) => places.push(token.place),
        _ => Ok(()),
    }
}

/// The places of the tokens that are embedded statements.
#[tactic(auto, using(crate::proofs::source_lemmas::Reading::place_first))]
pub fn statement_places(alloc: Global, tokens: &[Token]) -> Result<List<u32>, OutOfMemory>
    ensures { IfOk result (λ places. places ≡ spec.statement_places (tokens_view tokens.now)) }
{
    let mut places = List::new(alloc);
    for token in tokens {
        add_place(&mut places, token)?;
    }
    Ok(places)
}

// The statement of a piece behind the others.
fn add_statement(
    alloc: Global,
    statements: &mut List<Emb>,
    piece: &Piece,
    place: u32,
) -> Result<(), Stop>
    requires fits { piece.now.line.0 + length piece.now.bytes < 2 ^ 32 }
    requires tokens { HasSqlTokens piece.now.bytes }
    ensures { AddsStatement piece.now place statements.old statements.new result }
{
    match read_statement(alloc, piece, place) {
        Ok(statement) => match statements.push(statement) {
            Ok(()) => Ok(()),
            Err(_) => Err(Stop::OutOfMemory),
        },
        Err(stop) => Err(stop),
    }
}

/// The embedded statements among pieces, whose tokens have these places.
///
/// # Errors
///
/// That of the first piece that is no statement: F8 or F9 with its line, or L4.
pub fn read_statements(alloc: Global, pieces: &[Piece], places: &[u32]) -> Result<List<Emb>, Stop>
    requires fit { HaveLines pieces.now }
    requires tokens { HaveSqlTokens pieces.now }
    requires places { length places.now ≡ statement_count pieces.now }
    ensures { TellsStatements pieces.now places.now result }
{
    let mut statements = List::new(alloc);
    let mut next = 0usize;
    for piece in pieces {
        if is_statement(piece.kind) {
            match add_statement(alloc, &mut statements, piece, places[next]) {
                Ok(()) => next += 1,
                Err(stop) => return Err(stop),
            }
        }
    }
    Ok(statements)
}
