//! The tree of a source, with its embedded statements.

ghost use Rattle.std.specs.Prelude.{◌≡◌, ◌≤◌, ◌^◌, length, false, map, List as Sequence, ℕ};
ghost use Rattle.ec_ctypes.specs.views.Embedded.{emb_view};
ghost use Rattle.ec_ctypes.specs.views.Tokens.{tokens_view};
ghost use Rattle.ec_ctypes.specs.views.Units.{unit_view};
ghost use Rattle.ec_host_defs.specs.Statements as spec;
ghost use Rattle.ec_language.specs.Pieces.{Pieces};
ghost use Rattle.ec_language.specs.Syntax.{EndsOnce};
ghost use Rattle.ec_language.specs.Tokens.{Tokens};
ghost use Rattle.ec_front.specs.source.Answers.{seen, TellsStatements, TellsPieces, TellsTree, IsOnlyTree};

use crate::source::statements::{read_statements, statement_places};
use ec_base::{LimitKind, List, Stop};
use ec_clex::tokens;
use ec_csyntax::parse;
use ec_ctypes::{Emb, Piece, Token, Unit};
use ec_phases_defs::sources_are_read;
use ec_split::split;
use std::alloc::Global;

/// The most bytes of a text.
const MAX_TEXT: usize = 1 << 24;

// The statements of the pieces of a text.
fn statements(alloc: Global, pieces: &[Piece], tokens: &[Token]) -> Result<List<Emb>, Stop>
    requires cut { (text : Sequence ℕ) × (length text ≤ 2 ^ 24) × Pieces text pieces.now }
    requires lexed { Tokens false pieces.now (tokens_view tokens.now) }
    ensures { TellsStatements pieces.now (spec.statement_places (tokens_view tokens.now)) result }
{
    let places = statement_places(alloc, tokens)?;
    read_statements(alloc, pieces, places.as_slice())
}

// A tree with these statements.
fn with_statements(unit: Unit, statements: Result<List<Emb>, Stop>) -> Result<Unit, Stop>
    ensures { seen unit_view result
        ≡ spec.with_statements (unit_view unit) (seen (map emb_view) statements) }
{
    match statements {
        Ok(embs) => Ok(Unit {
            tops: unit.tops,
            embs,
            last: unit.last,
        }),
        Err(stop) => Err(stop),
    }
}

// The tree of the tokens of the pieces of a text, with its statements.
fn tree_of_tokens(alloc: Global, pieces: &[Piece], tokens: &List<Token>) -> Result<Unit, Stop>
    requires cut { (text : Sequence ℕ) × (length text ≤ 2 ^ 24) × Pieces text pieces.now }
    requires lexed { Tokens false pieces.now (tokens_view tokens.now) }
    requires ends { EndsOnce (tokens_view tokens.now) }
    ensures { TellsPieces pieces.now result }
{
    match parse(alloc, tokens) {
        Ok(unit) => with_statements(unit, statements(alloc, pieces, tokens.as_slice())),
        Err(stop) => Err(stop),
    }
}

// The tree of the pieces of a text, with its statements.
fn tree_of_pieces(alloc: Global, pieces: &List<Piece>) -> Result<Unit, Stop>
    requires { (text : Sequence ℕ) × (length text ≤ 2 ^ 24) × Pieces text pieces.now }
    ensures { TellsPieces pieces.now result }
{
    match tokens(alloc, pieces, false) {
        Ok(tokens) => tree_of_tokens(alloc, pieces.as_slice(), &tokens),
        Err(stop) => Err(stop),
    }
}

// The tree of a text of at most 2^24 bytes, with its statements.
fn tree_of_text(alloc: Global, text: &[u8]) -> Result<Unit, Stop>
    requires { length text.now ≤ 2 ^ 24 }
    ensures { TellsTree text.now result }
{
    match split(alloc, text) {
        Ok(pieces) => tree_of_pieces(alloc, &pieces),
        Err(stop) => Err(stop),
    }
}

/// The tree of a source, with its embedded statements.
///
/// # Errors
///
/// The limit L6 where the text has more than 2^24 bytes. Else the first phase that finds something refuses the text: an
/// unclosed comment, quote or statement; a byte, number or escape that is none, a form that is left out, or too many tokens
/// (L2); the line of the first token with which no program goes on (F7), or L3 where one nests too deep or counts too high;
/// a statement that has no form (F8), that is left out (F9), or that has too many inputs or suffixes (L4).
pub fn read_tree(alloc: Global, text: &[u8]) -> Result<Unit, Stop>
    ensures answer { TellsTree text.now result }
    ensures only { IsOnlyTree text.now result }
{
    sources_are_read();
    if text.len() > MAX_TEXT {
        return Err(Stop::Limit(LimitKind::L6));
    }
    tree_of_text(alloc, text)
}
