//! The run of a program.

ghost use Rattle.std.specs.Prelude.{◌≡◌, ◌⊎◌, ◌≤◌, ℕ, List, [], length, OnOk, OnErr};
ghost use Rattle.std.specs.Io.KnownBytes.{Keeps};
ghost use Rattle.ec_base.specs.Causes.{Rose};
ghost use Rattle.ec_link.specs.Links.{talk_by, faults_by};
ghost use Rattle.ec_link.specs.Rack.{slots_of};
ghost use Rattle.ec_execute.specs.Ends.{end_of};
ghost use Rattle.ec_execute.specs.Executables.{executable_view};
ghost use Rattle.ec_execute.specs.Runs.{Connects, Ran};

use crate::executable::Executable;
use ec_base::{Failed, Line, Sink, Trap};
use ec_interp::RunEnd as MachineEnd;
use ec_link::{Link, Rack};
use ec_runtime::Library;
use ec_stepper::Machine;
use std::alloc::Global;

/// How a run ended.
#[derive(Clone, Copy, Debug, PartialEq, Eq)]
pub enum RunEnd {
    /// The program returned, or called `exit`, with this status.
    Exited(u8),
    /// It did what has no meaning, at this line.
    Trapped(Trap, Line),
    /// It used up its turns.
    TurnsSpent,
    /// An output took no more.
    WriteFault,
    /// There was no memory left.
    OutOfMemory,
}

// How the machine's run ended. That nothing in a program lacks a meaning isn't proved: there is no memory for one that comes
// to such a part.
fn ended(end: MachineEnd) -> RunEnd
    ensures { result ≡ end_of end }
{
    match end {
        MachineEnd::Exited(status) => RunEnd::Exited(status),
        MachineEnd::Trapped(trap, line) => RunEnd::Trapped(trap, line),
        MachineEnd::TurnsSpent => RunEnd::TurnsSpent,
        MachineEnd::WriteFault => RunEnd::WriteFault,
        MachineEnd::Stuck | MachineEnd::OutOfMemory => RunEnd::OutOfMemory,
    }
}

// The first ready slot is free, if there is one, and nothing was asked over it.
fn free_ready(rack: &mut Rack)
    requires { length (slots_of rack.old) ≤ 64 }
    ensures { Connects (talk_by ⟦<dyn Link as Link>⟧) (faults_by ⟦<dyn Link as Link>⟧)
        rack.old rack.new [] }
{
    match rack.take_ready() {
        Some(conn) => rack.give_back(conn),
        None => {}
    }
}

// Runs a program over the first ready slot, if there is one. What it printed may not be passed on yet.
fn run_over<O: Sink, E: Sink>(
    alloc: Global,
    executable: &Executable,
    turns: u64,
    rack: &mut Rack,
    out: &mut O,
    err: &mut E,
) -> RunEnd
    requires { length (slots_of rack.old) ≤ 64 }
    ensures { Ran (talk_by ⟦<dyn Link as Link>⟧) (faults_by ⟦<dyn Link as Link>⟧)
        O.held O.faults E.held E.faults (executable_view executable.now) turns
        out.old out.new err.old err.new rack.old rack.new result }
{
    let calls = executable.calls.as_slice();
    let mut machine = Machine::new(alloc, &executable.program, calls, Library::new(alloc));
    match machine.begin(turns, rack) {
        Ok(()) => {
            let end = machine.go_on(rack, out, err);
            machine.give_up(rack);
            ended(end)
        }
        Err(_) => {
            machine.give_up(rack);
            free_ready(rack);
            RunEnd::OutOfMemory
        }
    }
}

// Passes on what both outputs kept back.
fn flush_both<O: Sink, E: Sink>(out: &mut O, err: &mut E) -> Result<(), Failed>
    ensures output { Keeps (O.held out.old) (O.held out.new) }
    ensures errors { Keeps (E.held err.old) (E.held err.new) }
    ensures later { (O.faults out.old ≤ O.faults out.new) × (E.faults err.old ≤ E.faults err.new) }
    ensures steady { OnOk result
        ((O.faults out.new ≡ O.faults out.old) × (E.faults err.new ≡ E.faults err.old)) }
    ensures failed { OnErr result (Rose (O.faults out.old) (O.faults out.new)
        ⊎ Rose (E.faults err.old) (E.faults err.new)) }
{
    let flushed = out.flush();
    match err.flush() {
        Ok(()) => flushed,
        Err(Failed) => Err(Failed),
    }
}

/// Runs a program with so many turns over the first ready slot of a rack, if it has one. The slot of each connection that is
/// open at the end is free again. What the program printed is passed on, however it ended.
pub fn run<O: Sink, E: Sink>(
    alloc: Global,
    executable: &Executable,
    turns: u64,
    rack: &mut Rack,
    out: &mut O,
    err: &mut E,
) -> RunEnd
    requires { length (slots_of rack.old) ≤ 64 }
    ensures { Ran (talk_by ⟦<dyn Link as Link>⟧) (faults_by ⟦<dyn Link as Link>⟧)
        O.held O.faults E.held E.faults (executable_view executable.now) turns
        out.old out.new err.old err.new rack.old rack.new result }
{
    let end = run_over(alloc, executable, turns, rack, out, err);
    match flush_both(out, err) {
        Ok(()) => end,
        Err(Failed) => RunEnd::WriteFault,
    }
}
