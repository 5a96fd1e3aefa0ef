//! Many texts in one: rows.
//!
//! A row begins with a line `===`, and the lines from there to the next such line are its text, without the newline of the
//! last of them. What stands before the first row is passed over.

ghost use Rattle.std.specs.Prelude.{length, ◌≤◌, ◌^◌};

use crate::printer::Printer;
use ec_base::{LimitKind, OutOfMemory, Stop};
use ec_ctypes::{Emb, Piece, PieceKind};
use ec_read_statement::read_statement;
use ec_split::split;
use std::alloc::Global;

/// The most bytes of a text.
const MAX_TEXT: usize = 1 << 24;

/// The place of each statement, which isn't printed.
const PLACE: u32 = 0;

// The line that begins a row.
const MARKER: &[u8] = b"===\n";

// The tree of a statement. (The limit isn't met: no line number of a text passes its length.)
fn statement_of(alloc: Global, piece: &Piece) -> Result<Emb, Stop> {
    let last = u64::from(piece.line.0).saturating_add(piece.bytes.len() as u64);
    if last >= 1 << 32 {
        return Err(Stop::Limit(LimitKind::L6));
    }
    read_statement(alloc, piece, PLACE)
}

// Prints a statement on a line, or why it is refused.
fn show_statement(alloc: Global, printer: &mut Printer, piece: &Piece) -> Result<(), OutOfMemory> {
    match statement_of(alloc, piece) {
        Ok(statement) => printer.statement(&statement),
        Err(stop) => printer.stop(stop),
    }
}

// Prints the statements of a text, or why it has no pieces.
fn show_pieces(alloc: Global, printer: &mut Printer, text: &[u8]) -> Result<(), OutOfMemory>
    requires { length text.now ≤ 2 ^ 24 }
{
    match split(alloc, text) {
        Ok(pieces) => {
            for piece in pieces.as_slice() {
                if piece.kind == PieceKind::Emb {
                    show_statement(alloc, printer, piece)?;
                }
            }
            Ok(())
        }
        Err(stop) => printer.stop(stop),
    }
}

// Prints what begins a row, and what its text has.
fn show_row(alloc: Global, printer: &mut Printer, lines: &[u8]) -> Result<(), OutOfMemory> {
    let text = match lines.strip_suffix(b"\n") {
        Some(text) => text,
        None => lines,
    };
    printer.plain(MARKER)?;
    if text.len() > MAX_TEXT {
        return printer.stop(Stop::Limit(LimitKind::L6));
    }
    show_pieces(alloc, printer, text)
}

/// Prints each row: a line `===`, and then a line for each embedded statement.
pub fn show_rows(alloc: Global, printer: &mut Printer, rows: &[u8]) -> Result<(), OutOfMemory> {
    let mut text = Vec::new(alloc);
    let mut begun = false;
    for line in rows.split_inclusive(|byte| *byte == b'\n') {
        if line != MARKER {
            text.extend_from_slice(line)?;
            continue;
        }
        if begun {
            show_row(alloc, printer, text.as_slice())?;
        }
        begun = true;
        text.clear();
    }
    if begun {
        show_row(alloc, printer, text.as_slice())?;
    }
    Ok(())
}
