//! How much a text has.

ghost use Rattle.std.specs.Prelude.{length, ◌≤◌, ◌^◌};

use ec_base::{LimitKind, Stop};
use ec_clex::tokens;
use ec_csyntax::parse;
use ec_ctypes::{Emb, Piece, PieceKind};
use ec_cwrite::write;
use ec_front::source::read_checked;
use ec_read_statement::read_statement;
use ec_split::split;
use ec_transcript::{ReadStop, read_transcript, write_transcript};
use std::alloc::Global;

// How many pieces.
pub fn count_pieces(alloc: Global, text: &[u8]) -> Result<usize, Stop>
    requires { length text.now ≤ 2 ^ 24 }
{
    Ok(split(alloc, text)?.len())
}

// How many tokens.
pub fn count_tokens(alloc: Global, text: &[u8]) -> Result<usize, Stop>
    requires { length text.now ≤ 2 ^ 24 }
{
    let pieces = split(alloc, text)?;
    Ok(tokens(alloc, &pieces, false)?.len())
}

// How many declarations, functions and lines at the top level.
pub fn count_tops(alloc: Global, text: &[u8]) -> Result<usize, Stop>
    requires { length text.now ≤ 2 ^ 24 }
{
    let pieces = split(alloc, text)?;
    let found = tokens(alloc, &pieces, false)?;
    Ok(parse(alloc, &found)?.tops.len())
}

// How many bytes its written C has.
pub fn count_written(alloc: Global, text: &[u8]) -> Result<usize, Stop>
    requires { length text.now ≤ 2 ^ 24 }
{
    let pieces = split(alloc, text)?;
    let found = tokens(alloc, &pieces, false)?;
    let unit = parse(alloc, &found)?;
    Ok(write(&unit)?.len())
}

// How many objects, parameters and functions a source declares that the checks find nothing in.
pub fn count_checked(alloc: Global, text: &[u8]) -> Result<usize, Stop> {
    Ok(read_checked(alloc, text)?.names.len())
}

// The tree of a statement. (The limit isn't met: no line number of a text passes its length.)
fn statement_of(alloc: Global, piece: &Piece) -> Result<Emb, Stop> {
    let last = u64::from(piece.line.0).saturating_add(piece.bytes.len() as u64);
    if last >= 1 << 32 {
        return Err(Stop::Limit(LimitKind::L6));
    }
    read_statement(alloc, piece, 0)
}

// How many embedded statements, each of which is read.
pub fn count_statements(alloc: Global, text: &[u8]) -> Result<usize, Stop>
    requires { length text.now ≤ 2 ^ 24 }
{
    let pieces = split(alloc, text)?;
    let mut count: usize = 0;
    for piece in pieces.as_slice() {
        if piece.kind == PieceKind::Emb {
            let _ = statement_of(alloc, piece)?;
            count = count.saturating_add(1);
        }
    }
    Ok(count)
}

// How many exchanges a transcript has.
pub fn count_exchanges(alloc: Global, text: &[u8]) -> Result<usize, ReadStop>
    requires { length text.now ≤ 2 ^ 24 }
{
    Ok(read_transcript(alloc, text)?.log.len())
}

// How many bytes the transcript has that is written of one that was read.
pub fn count_recorded(alloc: Global, text: &[u8]) -> Result<usize, ReadStop>
    requires { length text.now ≤ 2 ^ 24 }
{
    let found = read_transcript(alloc, text)?;
    match write_transcript(alloc, &found.slots, found.log.as_slice()) {
        Ok(written) => Ok(written.len()),
        Err(_) => Err(ReadStop::OutOfMemory),
    }
}
