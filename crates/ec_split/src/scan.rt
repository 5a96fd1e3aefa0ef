//! The splitter.
ghost use Rattle.std.specs.Prelude.{◌≡◌, ◌^◌, ◌≤◌, length, IfOk, Err};
ghost use Rattle.ec_base.specs.declared.fault.LimitKind.{LimitKind};
ghost use Rattle.ec_base.specs.declared.stop.Stop.TheVariants as stops;
ghost use Rattle.ec_language.specs.Pieces.{Pieces};
ghost use Rattle.ec_language.specs.ReadPieces as read;
ghost use Rattle.ec_split.specs.Answers.{
  AnswersReading,
  FindsAllPieces,
  FindsFault,
  FindsAllFaults,
};

use crate::parts::first_part;
use crate::scanning::bytes::newlines;
use ec_base::{Line, List, Stop};
use ec_ctypes::Piece;
use std::alloc::Global;

/// The pieces of a text, or its first fault, part after part.
pub fn all_parts(alloc: Global, text: &[u8]) -> Result<List<Piece>, Stop>
    requires { length text.now ≤ 2 ^ 24 }
    ensures { AnswersReading (read.read_pieces text.now) result }
{
    let mut pieces = List::new(alloc);
    let mut at = 0;
    let mut line = 1u32;
    while at < text.len() {
        let part = first_part(text, at, line)?;
        let bytes = &text[at..part.end];
        pieces.push(Piece {
            kind: part.kind,
            bytes: List::from_slice(alloc, bytes)?,
            line: Line(line),
        })?;
        line += newlines(bytes) as u32;
        at = part.end;
    }
    Ok(pieces)
}

/// The pieces of a text: C text, and what is embedded in it. A text that has none is refused for
/// its first fault.
pub fn split(alloc: Global, text: &[u8]) -> Result<List<Piece>, Stop>
    requires { length text.now ≤ 2 ^ 24 }
    ensures pieces { IfOk result (λ pieces. Pieces text.now pieces) }
    ensures all_pieces { FindsAllPieces text.now result }
    ensures fault { FindsFault text.now result }
    ensures all_faults { FindsAllFaults text.now result }
    ensures no_limit { (limit : LimitKind) → result ≡ Err (stops.Limit limit) → ⊥ }
{
    all_parts(alloc, text)
}
