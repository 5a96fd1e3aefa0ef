//! The program of written C.

ghost use Rattle.std.specs.Prelude.{◌≡◌, true, [], Ok, IfSome, map};
ghost use Rattle.ec_code.specs.Views.{program_view};
ghost use Rattle.ec_ctypes.specs.views.Checked.{typed_view};
ghost use Rattle.ec_ctypes.specs.views.Units.{unit_view};
ghost use Rattle.ec_typing_defs.specs.Answers.{violations};
ghost use Rattle.ec_execution_defs.specs.Programs.{resolved};
ghost use Rattle.ec_resolve_values.specs.storage.Stored as stored;
ghost use Rattle.ec_execute.specs.Answers.{Is, TellsProgram, IsOnlyProgram};
ghost use Rattle.ec_execute.specs.Executables.{executable_view};

use crate::calls::calls_of;
use crate::executable::Executable;
use ec_base::Stop;
use ec_ctypes::Typed;
use ec_execution_defs::written_programs_are_single;
use ec_front::written::read_written;
use ec_resolve::resolve;
use ec_resolve_values::storage::Resolved;
use std::alloc::Global;

// A program that is resolved, with its calls as they are made.
fn linked(alloc: Global, resolved: Resolved) -> Option<Executable>
    ensures { IfSome result (λ made. executable_view made ≡ record {
      program = program_view resolved.program;
      calls = map stored.call_view resolved.calls;
    }) }
{
    let Resolved { program, calls } = resolved;
    match calls_of(alloc, calls) {
        Some(calls) => Some(Executable { program, calls }),
        None => None,
    }
}

// What is left of a program that was checked. That pointers which aren't evaluated before their calls are evaluated without
// calls is sure; it isn't proved, and there is no memory for a program with another.
#[tactic(auto, unfolding(ec_resolve::specs::Clean::FindsNothing, ec_resolve::specs::Clean::resolved_form, ec_resolve::specs::Clean::called_form))]
fn resolve_checked(alloc: Global, typed: &Typed) -> Result<Executable, Stop>
    requires no_statements { typed.now.unit.embs ≡ [] }
    requires no_violations { violations true (unit_view typed.now.unit) ≡ [] }
    ensures { Is (resolved (Ok (typed_view typed.now))) result }
{
    match resolve(alloc, true, &typed.unit) {
        Ok(resolved) => match linked(alloc, resolved) {
            Some(executable) => Ok(executable),
            // Out of reach, which isn't proved: no pointer of a call holds another call.
            None => Err(Stop::OutOfMemory),
        },
        Err(_) => Err(Stop::OutOfMemory),
    }
}

/// The program of written C, without names and types.
///
/// # Errors
///
/// What `read_written` refuses the text for.
pub fn read_program(alloc: Global, text: &[u8]) -> Result<Executable, Stop>
    ensures answer { TellsProgram text.now result }
    ensures only { IsOnlyProgram text.now result }
{
    written_programs_are_single();
    match read_written(alloc, text) {
        Ok(typed) => resolve_checked(alloc, &typed),
        Err(stop) => Err(stop),
    }
}
