//! Written C that is checked.

ghost use Rattle.std.specs.Prelude.{◌≡◌, [], Ok};
ghost use Rattle.ec_ctypes.specs.views.Units.{unit_view};
ghost use Rattle.ec_phases_defs.specs.written.Written as spec;
ghost use Rattle.ec_front.specs.written.Answers.{Is, TellsWritten, IsOnlyWritten};

use crate::unit::read_unit;
use ec_base::{List, Stop};
use ec_check::check;
use ec_ctypes::{HostTable, Typed, Unit};
use ec_declare::hosts;
use ec_phases_defs::written::written_is_read;
use ec_whenever::handlers;
use std::alloc::Global;

// The tree of written C, which has no embedded statements.
fn plain(alloc: Global, unit: Unit) -> Unit
    ensures { unit_view result ≡ spec.plain (unit_view unit) }
{
    Unit {
        tops: unit.tops,
        embs: List::new(alloc),
        last: unit.last,
    }
}

// Checks a tree, whose declare sections have these hosts.
fn check_with(alloc: Global, unit: Unit, table: HostTable) -> Result<Typed, Stop>
    requires { (unit_view unit).embs ≡ [] }
    ensures { Is (spec.checked_with (unit_view unit) (Ok table.hosts)) result }
{
    match handlers(alloc, &unit.embs) {
        Ok(marks) => check(alloc, unit, table, marks, true),
        Err(_) => Err(Stop::OutOfMemory),
    }
}

// Checks a tree without embedded statements.
fn check_plain(alloc: Global, unit: Unit) -> Result<Typed, Stop>
    requires { (unit_view unit).embs ≡ [] }
    ensures { Is (spec.checked_plain (unit_view unit)) result }
{
    match hosts(alloc, &unit) {
        Ok(table) => check_with(alloc, unit, table),
        Err(stop) => Err(stop),
    }
}

// Checks the tree of written C.
fn check_written(alloc: Global, unit: Unit) -> Result<Typed, Stop>
    ensures { Is (spec.checked_written (Ok (unit_view unit))) result }
{
    check_plain(alloc, plain(alloc, unit))
}

/// Written C that is checked: its tree, with the structs and the types of its declarations. What is embedded has no place in
/// it.
///
/// # Errors
///
/// The limit L6 where the text has more than 2^24 bytes. Else the first phase that finds something refuses the text: an
/// unclosed comment, quote or statement; a byte, number or escape that is none, a form that is left out, what is embedded
/// (F9), or too many tokens (L2); the line of the first token with which no program goes on (F7), or L3 where one nests too
/// deep or counts too high; a VARCHAR (F9); the first fault of its checks (F10 to F20), where a call of the library with
/// other arguments than it takes is F16, or a limit of these (L1).
pub fn read_written(alloc: Global, text: &[u8]) -> Result<Typed, Stop>
    ensures answer { TellsWritten text.now result }
    ensures only { IsOnlyWritten text.now result }
{
    written_is_read();
    match read_unit(alloc, text, true) {
        Ok(unit) => check_written(alloc, unit),
        Err(stop) => Err(stop),
    }
}
