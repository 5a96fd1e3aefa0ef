//! A call, up to its first request.

ghost use Rattle.std.specs.Prelude.{◌≡◌, ◌≤◌, ◌<◌, ℕ, List, IfOk, None, map, true};
ghost use Rattle.ec_call_defs.specs.Library.{library_call};
ghost use Rattle.ec_call_defs.specs.Steps.{called, given_first, no_step, settled};
ghost use Rattle.ec_meaning_defs.specs.evaluation.Results.{Res, turn};
ghost use Rattle.ec_meaning_defs.specs.evaluation.State.{State};
ghost use Rattle.ec_link.specs.declared.logged.Logged.{Logged};
ghost use Rattle.ec_machine.specs.Goes.{IsOver};
ghost use Rattle.ec_plain.specs.Answered.{context, ending_of};
ghost use Rattle.ec_runtime.specs.Calling.{conns_of, AllBeside, Stays};
ghost use Rattle.ec_runtime.specs.Proceeding.{IsFit};
ghost use Rattle.ec_runtime.specs.Statements.{call_action};
ghost use Rattle.ec_calling.specs.Giving.{all_seen};
ghost use Rattle.ec_calling.specs.Making.{answer_of, going_of, position_at, progress_of, turned, Begun};
ghost use Rattle.ec_calling.specs.Views.{argument_view};
ghost use Rattle.ec_values.specs.Words.{word_view};

use crate::address::Address;
use crate::area::has_area;
use crate::call::Call;
use crate::giving::give;
use crate::serving::served;
use ec_base::Line;
use ec_bytes::Ptr;
use ec_ctypes::LibName;
use ec_cut::{Argument as Given, cut};
use ec_interp::running::Progress;
use ec_machine::{End, Stop};
use ec_memory::Store;
use ec_runtime::{Call as Served, CallStop, Library, Progress as Far};
use ec_values::{Stop as NoValue, Word};
use std::alloc::Global;

// Takes a turn, if one is left.
fn take_turn(turns: &mut u64) -> bool
    ensures turn { (s : State) (go : State → Res) → turn (record s { turns = turns.old }) go
        ≡ turned result (record s { turns = turns.new }) go }
    ensures fewer { turns.new ≤ turns.old }
    ensures taken { result ≡ true → turns.new < turns.old }
{
    if *turns == 0 {
        return false;
    }
    *turns -= 1;
    true
}

// How the run ends where an argument has no value, on this line.
fn stopped(line: Line, why: NoValue) -> Stop
    ensures { IsOver result (ending_of line.0 why) }
{
    match why {
        NoValue::Trap(trap) => Stop::Over(End::Trapped(trap, line)),
        NoValue::Misfit => Stop::Over(End::Stuck),
    }
}

fn progress(far: Far) -> Progress
    ensures { result ≡ progress_of far }
{
    match far {
        Far::Asks => Progress::Asks,
        Far::Done => Progress::Done,
    }
}

/// How the run goes on behind what the library answers. Its traps are at this line.
pub(crate) fn answered(line: Line, far: Result<Far, CallStop>) -> Result<Progress, Stop>
    ensures { result ≡ answer_of line far }
{
    match far {
        Ok(far) => Ok(progress(far)),
        Err(CallStop::Trapped(trap)) => Err(Stop::Over(End::Trapped(trap, line))),
        Err(CallStop::OutOfMemory) => Err(Stop::OutOfMemory),
    }
}

// A call that the library begins. Its traps are at this line.
fn begin(
    alloc: Global,
    store: &mut Store,
    library: &mut Library,
    line: Line,
    call: Served,
) -> Result<Progress, Stop>
    requires beside { AllBeside (conns_of library.old.connections) }
    requires idle { library.old.under_way ≡ None }
    requires fits { IsFit library.old }
    ensures begun { (turns : ℕ) (log : List Logged) → Begun
        (λ w first s. settled line.0 (call_action call s)) line.0
        (position_at store.old turns log library.old)
        (position_at store.new turns log library.new) (going_of library.new) result }
    ensures fits { IsFit library.new }
    ensures stays { Stays library.old.connections library.new.connections }
{
    if !has_area(store) {
        // Out of reach, which isn't proved: the first object is the area from the beginning.
        return Err(Stop::OutOfMemory);
    }
    answered(line, library.start(alloc, store, call))
}

// A call with these arguments.
fn carry(
    alloc: Global,
    store: &mut Store,
    library: &mut Library,
    line: Line,
    name: LibName,
    given: &[Given<&[u8], Address>],
) -> Result<Progress, Stop>
    requires beside { AllBeside (conns_of library.old.connections) }
    requires idle { library.old.under_way ≡ None }
    requires fits { IsFit library.old }
    ensures begun { (turns : ℕ) (log : List Logged) → Begun
        (λ w first s. settled line.0 (library_call name (all_seen given.now) s)) line.0
        (position_at store.old turns log library.old)
        (position_at store.new turns log library.new) (going_of library.new) result }
    ensures fits { IsFit library.new }
    ensures stays { Stays library.old.connections library.new.connections }
{
    match cut(alloc, name, given) {
        Err(_) => Err(Stop::OutOfMemory),
        Ok(None) => Err(Stop::Over(End::Stuck)),
        Ok(Some(found)) => match served(alloc, &found) {
            Some(call) => begin(alloc, store, library, line, call),
            // Where there is memory each call is served, which isn't proved.
            None => Err(Stop::OutOfMemory),
        },
    }
}

/// A call whose first pointers have these values: its other arguments are evaluated, it takes its turn, and it is carried out
/// up to its first request. Its traps are at this line. Nothing is asked.
///
/// A call without a communication area is left as if there were no memory for it.
pub(crate) fn make(
    alloc: Global,
    store: &mut Store,
    turns: &mut u64,
    line: Line,
    scope: &[Ptr],
    library: &mut Library,
    call: &Call,
    values: &[Word],
) -> Result<Progress, Stop>
    requires beside { AllBeside (conns_of library.old.connections) }
    requires idle { library.old.under_way ≡ None }
    requires fits { IsFit library.old }
    ensures begun { (log : List Logged) → Begun
        (λ w first s. called no_step w (context line.0 scope.now first)
        call.now.name (given_first (map word_view values.now)
        (map argument_view call.now.arguments)) s) line.0
        (position_at store.old turns.old log library.old)
        (position_at store.new turns.new log library.new) (going_of library.new) result }
    ensures fits { IsFit library.new }
    ensures stays { Stays library.old.connections library.new.connections }
    ensures fewer { turns.new ≤ turns.old }
    ensures turn { IfOk result (λ progress. turns.new < turns.old) }
{
    let arguments = call.arguments.as_slice();
    match give(alloc, store, scope, arguments, values) {
        Err(why) => Err(stopped(line, why)),
        // Out of reach, which isn't proved: no argument of a call of the library holds another.
        Ok(None) => Err(Stop::OutOfMemory),
        Ok(Some(given)) => {
            if !take_turn(turns) {
                return Err(Stop::Over(End::TurnsSpent));
            }
            let list = given.as_slice();
            carry(alloc, store, library, line, call.name, list)
        }
    }
}
