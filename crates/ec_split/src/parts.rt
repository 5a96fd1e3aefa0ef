//! The first piece of a text, or the fault in its place.
ghost use Rattle.std.specs.Prelude.{◌≡◌, ◌+◌, ◌^◌, ◌≤◌, ◌<◌, length, drop, IfOk};
ghost use Rattle.ec_base.specs.declared.stop.Stop.TheVariants as stops;
ghost use Rattle.ec_language.specs.ReadPieces as read;
ghost use Rattle.ec_split.specs.Places.{
  part_read,
  ends_c_text,
  lines_between,
  c_piece,
  embedded_piece,
};

use crate::embedded::{Found, embedded};
use crate::scanning::bytes::{begins_two, is_blank, newlines};
use crate::scanning::ends::End;
use crate::scanning::fronts::{behind_start, starts_piece};
use crate::scanning::units::c_end;
use ec_base::{FaultKind, Line, Stop};
use ec_ctypes::PieceKind;

/// What the piece is, and the index behind it.
#[derive(Clone, Copy)]
pub struct Extent {
    pub kind: PieceKind,
    pub end: usize,
}

/// A fault, and the line where it stands.
#[derive(Clone, Copy)]
pub struct Fault {
    pub kind: FaultKind,
    pub line: Line,
}

impl From<Fault> for Stop {
    ghost from_gives = { λ fault stop. stop ≡ stops.Refused fault.kind fault.line };

    fn from(fault: Fault) -> Stop {
        Stop::Refused(fault.kind, fault.line)
    }
}

/// The index where C text stops: an embedded piece starts there, or no unit stands there.
#[inline(never)]
#[tactic(auto, using(crate::proofs::Walks::c_next, crate::proofs::Walks::blank_next))]
pub fn c_stop(text: &[u8], from: usize) -> usize
    requires { from ≤ length text.now }
    ensures is { drop result text.now ≡ read.c_stop (drop from text.now) }
    ensures behind { from ≤ result }
    ensures within { result ≤ length text.now }
{
    let mut at = from;
    while at < text.len() {
        if is_blank(text[at]) {
            at += 1;
            continue;
        }
        if starts_piece(text, at) {
            return at;
        }
        match c_end(text, at) {
            End::Passed(end) => at = end,
            _ => return at,
        }
    }
    at
}

/// Whether the text ends at the index, or an embedded piece starts there.
pub fn is_c_end(text: &[u8], at: usize) -> bool
    requires { at ≤ length text.now }
    ensures { result ≡ ends_c_text (drop at text.now) }
{
    at == text.len() || starts_piece(text, at)
}

/// The fault of this kind at an index, of a text that begins on this line at another.
pub fn fault_at(text: &[u8], from: usize, line: u32, kind: FaultKind, at: usize) -> Fault
    requires order { from ≤ at }
    requires inside { at ≤ length text.now }
    requires small { length text.now ≤ 2 ^ 24 }
    requires early { line ≤ from + 1 }
    ensures kind { result.kind ≡ kind }
    ensures line { result.line.0 ≡ line + lines_between text.now from at }
{
    Fault {
        kind,
        line: Line(line + newlines(&text[from..at]) as u32),
    }
}

/// The C text that stands from the index on.
pub fn c_part(text: &[u8], from: usize, line: u32) -> Result<Extent, Fault>
    requires inside { from < length text.now }
    requires small { length text.now ≤ 2 ^ 24 }
    requires early { line ≤ from + 1 }
    ensures is { part_read text.now from line result ≡ c_piece line (drop from text.now) }
    ensures within { IfOk result (λ part. (from ≤ part.end) × (part.end ≤ length text.now)) }
{
    let end = c_stop(text, from);
    if is_c_end(text, end) {
        return Ok(Extent {
            kind: PieceKind::C,
            end,
        });
    }
    let kind = if begins_two(text, end, b'/', b'*') {
        FaultKind::F1
    } else {
        FaultKind::F2
    };
    Err(fault_at(text, from, line, kind, end))
}

/// The embedded piece that starts at the index, behind whose `EXEC SQL` the other index stands.
pub fn embedded_part(text: &[u8], from: usize, line: u32, behind: usize) -> Result<Extent, Fault>
    requires order { from ≤ behind }
    requires inside { behind ≤ length text.now }
    requires small { length text.now ≤ 2 ^ 24 }
    requires early { line ≤ from + 1 }
    ensures is { part_read text.now from line result ≡ embedded_piece text.now from line behind }
    ensures within { IfOk result (λ part. (from ≤ part.end) × (part.end ≤ length text.now)) }
{
    match embedded(text, behind) {
        Found::Whole(kind, end) => Ok(Extent { kind, end }),
        Found::CutAt(at) => Err(fault_at(text, from, line, FaultKind::F2, at)),
        Found::Unended => Err(Fault {
            kind: FaultKind::F3,
            line: Line(line),
        }),
    }
}

/// The piece that stands from the index on, of a text that begins on this line there.
pub fn first_part(text: &[u8], from: usize, line: u32) -> Result<Extent, Fault>
    requires inside { from < length text.now }
    requires small { length text.now ≤ 2 ^ 24 }
    requires early { line ≤ from + 1 }
    ensures is { part_read text.now from line result ≡ read.first_piece line (drop from text.now) }
    ensures within { IfOk result (λ part. (from ≤ part.end) × (part.end ≤ length text.now)) }
{
    match behind_start(text, from) {
        Some(behind) => embedded_part(text, from, line, behind),
        None => c_part(text, from, line),
    }
}
