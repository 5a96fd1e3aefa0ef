//! Sources, read over all phases.

ghost use Rattle.std.specs.Prelude.{◌≡◌, Ok};
ghost use Rattle.ec_ctypes.specs.views.Checked.{typed_view};
ghost use Rattle.ec_phases_defs.specs.Sources.{bound_program};
ghost use Rattle.ec_front.specs.source.Answers.{Tells};
ghost use Rattle.ec_front.specs.source.Whole.{source_view, TellsSource, IsOnlySource, TellsFirst};

use crate::source::checked::read_checked;
use crate::translation::bound_statements;
use ec_base::{List, Stop};
use ec_ctypes::{Bound, Typed};
use ec_phases_defs::sources_are_read;
use std::alloc::Global;

/// A source that is accepted: its program, and what is bound for its embedded statements, in their order.
#[derive(Drop)]
pub struct Source {
    pub program: Typed,
    pub bounds: List<Bound>,
}

// A program that is checked, with what is bound for its statements.
fn with_bounds(alloc: Global, program: Typed) -> Result<Source, Stop>
    ensures { Tells source_view (λ told. told ≡ bound_program (Ok (typed_view program))) result }
{
    match bound_statements(alloc, &program) {
        Ok(bounds) => Ok(Source { program, bounds }),
        Err(stop) => Err(stop),
    }
}

/// A source, read over all phases: its program, with what is bound for its embedded statements.
///
/// # Errors
///
/// The first fault or limit of the source, with its line: what the first phase that finds something refuses it for, as of
/// `read_checked`, and then the fault of the first statement that has one in its hosts or its cursor (F21 to F28).
pub fn read_source(alloc: Global, text: &[u8]) -> Result<Source, Stop>
    ensures answer { TellsSource text.now result }
    ensures only { IsOnlySource text.now result }
    ensures first { TellsFirst text.now result }
{
    sources_are_read();
    match read_checked(alloc, text) {
        Ok(program) => with_bounds(alloc, program),
        Err(stop) => Err(stop),
    }
}
