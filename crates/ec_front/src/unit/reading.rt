//! A text is read as a program.

ghost use Rattle.std.specs.Prelude.{◌≡◌, ◌≤◌, ◌^◌, length, true, Result, List as Sequence, ℕ};
ghost use Rattle.ec_base.specs.declared.stop.Stop.{Stop as TheStop};
ghost use Rattle.ec_ctypes.specs.trees.Units.{UnitData};
ghost use Rattle.ec_language.specs.First.{Reads};
ghost use Rattle.ec_language.specs.Pieces.{Pieces};
ghost use Rattle.ec_front.specs.unit.Answers.{TellsReading, TellsRest, IsOnly};

use ec_base::{LimitKind, List, Stop};
use ec_clex::tokens;
use ec_csyntax::parse;
use ec_ctypes::{Piece, Token, Unit};
use ec_grammar::exact::readings_are_single;
use ec_split::split;
use std::alloc::Global;

/// The most bytes of a text.
const MAX_TEXT: usize = 1 << 24;

/// The program of the pieces of a text.
fn unit_of_pieces(alloc: Global, pieces: &List<Piece>, written: bool) -> Result<Unit, Stop>
    requires { (text : Sequence ℕ) × (length text ≤ 2 ^ 24) × Pieces text pieces.now }
    ensures { TellsRest written pieces.now result }
{
    match tokens(alloc, pieces, written) {
        Ok(tokens) => parse(alloc, &tokens),
        Err(stop) => Err(stop),
    }
}

/// The program of a text of at most 2^24 bytes.
fn unit_of_text(alloc: Global, text: &[u8], written: bool) -> Result<Unit, Stop>
    requires { length text.now ≤ 2 ^ 24 }
    ensures { TellsReading written text.now result }
{
    match split(alloc, text) {
        Ok(pieces) => unit_of_pieces(alloc, &pieces, written),
        Err(stop) => Err(stop),
    }
}

/// The program that a text is read as, as a source or as written C.
///
/// # Errors
///
/// The limit L6 where the text has more than 2^24 bytes. Else the first phase that finds something refuses the text: an
/// unclosed comment, quote or statement; a byte, number or escape that is none, a form that is left out, or too many tokens
/// (L2); the line of the first token with which no program goes on (F7), or L3 where one nests too deep or counts too high.
pub fn read_unit(alloc: Global, text: &[u8], written: bool) -> Result<Unit, Stop>
    ensures answer { TellsReading written text.now result }
    ensures only { (answer : Result UnitData TheStop)
        → Reads written text.now answer → IsOnly result answer }
{
    readings_are_single();
    if text.len() > MAX_TEXT {
        return Err(Stop::Limit(LimitKind::L6));
    }
    unit_of_text(alloc, text, written)
}
