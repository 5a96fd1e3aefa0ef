//! A source that is checked.

ghost use Rattle.std.specs.Prelude.{◌≡◌, true, Ok};
ghost use Rattle.ec_ctypes.specs.views.Checked.{typed_view};
ghost use Rattle.ec_ctypes.specs.views.Units.{unit_view};
ghost use Rattle.ec_phases_defs.specs.Sources.{checked_tree, checked_with};
ghost use Rattle.ec_whenever.specs.Tables.{are_in_order};
ghost use Rattle.ec_front.specs.source.Answers.{Tells, TellsChecked, IsOnlyChecked};

use crate::source::tree::read_tree;
use ec_base::{List, Stop};
use ec_check::check;
use ec_ctypes::{HostTable, Typed, Unit};
use ec_declare::hosts;
use ec_phases_defs::{sources_are_read, statements_have_places};
use ec_whenever::handlers;
use std::alloc::Global;

// Checks a tree, whose declare sections have these hosts.
fn check_with(alloc: Global, unit: Unit, table: HostTable) -> Result<Typed, Stop>
    requires { are_in_order (unit_view unit).embs ≡ true }
    ensures { Tells typed_view
        (λ told. told ≡ checked_with (unit_view unit) (Ok table.hosts)) result }
{
    match handlers(alloc, &unit.embs) {
        Ok(marks) => check(alloc, unit, table, marks, false),
        Err(_) => Err(Stop::OutOfMemory),
    }
}

// Checks a tree.
fn check_tree(alloc: Global, unit: Unit) -> Result<Typed, Stop>
    requires { are_in_order (unit_view unit).embs ≡ true }
    ensures { Tells typed_view (λ told. told ≡ checked_tree (Ok (unit_view unit))) result }
{
    match hosts(alloc, &unit) {
        Ok(table) => check_with(alloc, unit, table),
        Err(stop) => Err(stop),
    }
}

/// A source that is checked: its tree, with the structs and the types of its declarations, its hosts and its handlers.
///
/// # Errors
///
/// As of `read_tree`; then the first fault of its declare sections (F9, F13), and then the first of its checks (F10 to F20,
/// F29, F30), or a limit of these (L1, L5).
pub fn read_checked(alloc: Global, text: &[u8]) -> Result<Typed, Stop>
    ensures answer { TellsChecked text.now result }
    ensures only { IsOnlyChecked text.now result }
{
    sources_are_read();
    statements_have_places();
    match read_tree(alloc, text) {
        Ok(unit) => check_tree(alloc, unit),
        Err(stop) => Err(stop),
    }
}
