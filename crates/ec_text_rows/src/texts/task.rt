//! What is shown of a text.

ghost use Rattle.std.specs.Prelude.{length, ◌≤◌, ◌^◌};

use crate::printer::Printer;
use ec_base::{LimitKind, List, OutOfMemory, Stop};
use ec_clex::{sql_tokens, tokens};
use ec_csyntax::parse;
use ec_ctypes::{Piece, PieceKind, Tok, Token};
use ec_split::split;
use std::alloc::Global;
use std::str;

/// The most bytes of a text.
pub const MAX_TEXT: usize = 1 << 24;

// How far a text is read, and what of it is printed.
#[derive(Clone, Copy)]
enum Part {
    Pieces,
    Tokens,
    Syntax,
    // Copies of what stands in the tree.
    Copies,
    // Whether it has a tree.
    Verdict,
    // Questions on types and numbers, and no source.
    Arithmetic,
}

/// What is printed of a text.
#[derive(Clone, Copy)]
pub struct Task {
    part: Part,
    // Whether the text is read as written C, and else as a source.
    written: bool,
}

// The name of each task, its part, and whether the text is written C.
const TASKS: [(&str, Part, bool); 9] = [
    ("pieces", Part::Pieces, false),
    ("tokens", Part::Tokens, false),
    ("tokens written", Part::Tokens, true),
    ("syntax", Part::Syntax, false),
    ("syntax written", Part::Syntax, true),
    ("copies", Part::Copies, false),
    ("verdict", Part::Verdict, false),
    ("verdict written", Part::Verdict, true),
    ("arithmetic", Part::Arithmetic, false),
];

/// The task of this name.
pub fn task_named(name: &[u8]) -> Option<Task> {
    for (known, part, written) in TASKS.iter() {
        if known.as_bytes() == name {
            return Some(Task {
                part: *part,
                written: *written,
            });
        }
    }
    None
}

// Prints the tokens of an embedded statement.
fn show_statement(alloc: Global, printer: &mut Printer, piece: &Piece) -> Result<(), Stop> {
    let last = u64::from(piece.line.0).saturating_add(piece.bytes.len() as u64);
    if last < 1 << 32 {
        printer.sql_tokens(&sql_tokens(alloc, piece)?)?;
    }
    Ok(())
}

// Prints tokens, each embedded statement with its own.
fn show_tokens(
    alloc: Global,
    printer: &mut Printer,
    pieces: &List<Piece>,
    found: &List<Token>,
) -> Result<(), Stop> {
    let mut rest = pieces.as_slice().iter();
    for token in found.as_slice() {
        printer.token(token)?;
        if matches!(token.tok, Tok::Emb(_, _)) {
            for piece in rest.by_ref() {
                if piece.kind == PieceKind::Emb {
                    show_statement(alloc, printer, piece)?;
                    break;
                }
            }
        }
    }
    Ok(())
}

// Prints what is asked for, or nothing of a text that is refused before.
fn show_read(alloc: Global, printer: &mut Printer, task: Task, text: &[u8]) -> Result<(), Stop>
    requires { length text.now ≤ 2 ^ 24 }
{
    let pieces = split(alloc, text)?;
    if matches!(task.part, Part::Pieces) {
        return Ok(printer.pieces(&pieces)?);
    }
    let found = tokens(alloc, &pieces, task.written)?;
    if matches!(task.part, Part::Tokens) {
        return show_tokens(alloc, printer, &pieces, &found);
    }
    let unit = parse(alloc, &found)?;
    if matches!(task.part, Part::Syntax) {
        return Ok(printer.program(&unit)?);
    }
    if matches!(task.part, Part::Copies) {
        return Ok(printer.copies(alloc, &unit)?);
    }
    Ok(printer.plain(b"read\n")?)
}

// Prints the answers to questions.
fn show_arithmetic(printer: &mut Printer, text: &[u8]) -> Result<(), OutOfMemory> {
    match str::from_utf8(text) {
        Ok(questions) => printer.arithmetic(questions),
        Err(_) => Ok(()),
    }
}

/// Prints what is asked for of a text, or the fault or the limit for which it is refused.
pub fn show(
    alloc: Global,
    printer: &mut Printer,
    task: Task,
    text: &[u8],
) -> Result<(), OutOfMemory> {
    if text.len() > MAX_TEXT {
        return printer.limit(LimitKind::L6);
    }
    if matches!(task.part, Part::Arithmetic) {
        return show_arithmetic(printer, text);
    }
    match show_read(alloc, printer, task, text) {
        Ok(()) => Ok(()),
        Err(stop) => printer.stop(stop),
    }
}
