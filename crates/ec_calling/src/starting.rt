//! The call of a number, up to its first request.

ghost use Rattle.std.specs.Option.{option_copied};
ghost use Rattle.std.specs.Prelude.{◌≡◌, ◌≤◌, ◌<◌, ◌^◌, List, IfOk, map, option_map, slice_get};
ghost use Rattle.ec_call_defs.specs.Steps.{library_step};
ghost use Rattle.ec_interp.specs.declared.running.library.Progress.TheVariants as progress;
ghost use Rattle.ec_interp.specs.running.Sessions.{Started};
ghost use Rattle.ec_link.specs.declared.logged.Logged.{Logged};
ghost use Rattle.ec_runtime.specs.Calling.{conns_of, AllBeside, Stays};
ghost use Rattle.ec_runtime.specs.Proceeding.{left_of, waiting_of, IsFit};
ghost use Rattle.ec_calling.specs.Making.{going_of, known_at};
ghost use Rattle.ec_calling.specs.Views.{call_view};
ghost use Rattle.ec_values.specs.Words.{word_view};

use crate::call::Call;
use crate::making::make;
use ec_base::Line;
use ec_bytes::Ptr;
use ec_interp::running::Progress;
use ec_machine::{End, Stop};
use ec_memory::Store;
use ec_runtime::Library;
use ec_values::Word;
use std::alloc::Global;

// The call of this number.
fn call_at<'p>(calls: &'p [Call], number: u32) -> Option<&'p Call>
    ensures { option_map call_view (option_copied result)
        ≡ slice_get (map call_view calls.now) number }
{
    calls.get(number as usize)
}

/// The call of this number, whose first pointers have these values, up to its first request. Its traps are at this line.
/// Nothing is asked. A call that was under way is let go.
pub(crate) fn begin_call(
    alloc: Global,
    store: &mut Store,
    turns: &mut u64,
    line: Line,
    scope: &[Ptr],
    library: &mut Library,
    calls: &[Call],
    number: u32,
    values: &[Word],
) -> Result<Progress, Stop>
    requires beside { AllBeside (conns_of library.old.connections) }
    ensures started { (log : List Logged) → Started (library_step (map call_view calls.now)) number
        (map word_view values.now) line.0 scope.now store.old turns.old (known_at log library.old)
        store.new turns.new (known_at log library.new) (going_of library.new) result }
    ensures fits { IsFit library.new }
    ensures stays { Stays library.old.connections library.new.connections }
    ensures fewer { turns.new ≤ turns.old }
    ensures turned { IfOk result (λ p. p ≡ progress.Asks → (turns.new < turns.old)
        × (left_of (waiting_of library.new) < 2 ^ 64)) }
{
    library.abandon();
    match call_at(calls, number) {
        Some(call) => {
            let begun = make(alloc, store, turns, line, scope, library, call, values);
            // A call makes at most as many requests as there are connections, or two.
            let _count = library.count();
            begun
        }
        None => Err(Stop::Over(End::Stuck)),
    }
}
