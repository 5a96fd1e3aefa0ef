//! The table of what is declared in sections, or the first fault.

ghost use Rattle.std.specs.Prelude.{◌≡◌, false, IfOk, map};
ghost use Rattle.ec_ctypes.specs.views.Units.{top_view, unit_view};
ghost use Rattle.ec_declare.specs.Answers.{Told};
ghost use Rattle.ec_host_defs.specs.sections.Answers.{hosts_answer, violations_from};
ghost use Rattle.ec_host_defs.specs.sections.Declared.{functions_of, hosts_of};
ghost use Rattle.ec_host_defs.specs.sections.Places.{of_tops};
ghost use Rattle.ec_language.specs.First.{first_of, stop_at};

use crate::counting::count_in;
use crate::places::tops;
use crate::scan::Scan;
use ec_base::{List, OutOfMemory, Stop};
use ec_ctypes::{HostTable, Top, Unit};
use std::alloc::Global;

/// The first fault of marks and VARCHARs.
fn first_stop(alloc: Global, trees: &[Top]) -> Result<Option<Stop>, OutOfMemory>
    ensures { IfOk result (λ stop. stop
        ≡ stop_at (first_of (violations_from 0 0 false (of_tops (map top_view trees.now))))) }
{
    let mut scan = Scan::new(alloc);
    tops(&mut scan, trees)?;
    Ok(scan.stop())
}

/// What is declared in a declare section (PostgreSQL manual, "Declaring Host Variables"), by the numbers of its
/// declarations.
///
/// # Errors
///
/// F9 at a mark without its partner, at a section in a section, and at a VARCHAR outside of a section, a pointer to one or
/// a parameter of one. F13 at a VARCHAR in a section without a length, which is a constant of 1 or more. The first place
/// decides, and there the lower number.
pub fn hosts(alloc: Global, unit: &Unit) -> Result<HostTable, Stop>
    ensures { Told (λ table. table.hosts) result (hosts_answer (unit_view unit.now)) }
{
    let stop = first_stop(alloc, unit.tops.as_slice())?;
    match stop {
        Some(stop) => Err(stop),
        None => {
            let count = count_in(alloc, unit.tops.as_slice())?;
            Ok(HostTable { hosts: count.hosts })
        }
    }
}

/// The numbers of the declarations of functions.
pub fn functions(alloc: Global, unit: &Unit) -> Result<List<u32>, OutOfMemory>
    ensures { IfOk result (λ numbers. numbers ≡ functions_of (unit_view unit.now)) }
{
    let count = count_in(alloc, unit.tops.as_slice())?;
    Ok(count.functions)
}
