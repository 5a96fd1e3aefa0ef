//! The commands that run a program: `run` and `record` a source, `exec` written C, and `gen` a generated source.
ghost use Rattle.std.specs.Prelude.{◌≡◌, ◌≤◌, drop, length};
ghost use Rattle.ec_link.specs.Rack.{log_of, slots_of};
ghost use Rattle.ec_link.specs.Slot.{states};
ghost use Rattle.ec_execute.specs.Executables.{executable_view};
ghost use Rattle.ec_link.specs.Links.{talk_by, faults_by};
ghost use Rattle.ec_cli.specs.Answers.{IsCrowded};
ghost use Rattle.ec_execution_defs.specs.Programs.{meaning};
ghost use Rattle.ec_cli.specs.Executing.{ending_of_program, text_refusal, meaning_over, shown_over, Carries, MayCarry, ExecutesText, Executes};
ghost use Rattle.ec_cli.specs.Forms.{TellsRun};
ghost use Rattle.ec_cli.specs.Recordings.{marks_of, RecordsAs};
ghost use Rattle.ec_cli.specs.Taking.{IsMadeFor};
ghost use Rattle.ec_generate.specs.Generated.{generated};

use crate::ending::Ending;
use crate::form::Form;
use crate::limits::is_crowded;
use crate::recording::{marks_of, put_transcript};
use crate::report::{Summary, report};
use crate::text::take_text;
use crate::unseen::Unseen;
use ec_base::{Bytes, LimitKind, List, Name, OutOfMemory, Sink, Source as Input, Stop};
use ec_execute::source::read_source;
use ec_execute::{Executable, RunEnd, read_program, run};
use ec_link::{Link, Logged, Rack};
use ec_replay_laws::runs_are_replayed;
use ec_sound_text_laws::accepted_programs_are_never_stuck;
use std::alloc::Global;

// The ending of a run.
fn ended(end: RunEnd) -> Ending
    ensures { result ≡ ending_of_program end }
{
    match end {
        RunEnd::Exited(status) => Ending::Exited(status),
        RunEnd::Trapped(trap, line) => Ending::Trapped(trap, line),
        RunEnd::TurnsSpent => Ending::TurnsSpent,
        RunEnd::WriteFault => Ending::WriteFault,
        RunEnd::OutOfMemory => Ending::OutOfMemory,
    }
}

// The ending of a text that is refused. The limits on slots and on numbers are none of a text's: there is no memory for one
// that passed them.
fn refused(stop: Stop) -> Ending
    ensures { result ≡ text_refusal stop }
{
    match stop {
        Stop::Refused(kind, line) => Ending::Refused(kind, line),
        Stop::Limit(LimitKind::L7 | LimitKind::L8) | Stop::OutOfMemory => Ending::OutOfMemory,
        Stop::Limit(kind) => Ending::Limit(kind),
    }
}

// Runs a program, which begins connected to the first ready slot, if there is one.
fn run_over<O: Sink, E: Sink>(
    alloc: Global,
    executable: &Executable,
    turns: u64,
    out: &mut O,
    err: &mut E,
    rack: &mut Rack,
) -> Ending
    requires { IsCrowded rack.old → ⊥ }
    ensures { Carries O.held O.faults E.held E.faults
        (talk_by ⟦<dyn Link as Link>⟧) (faults_by ⟦<dyn Link as Link>⟧)
        (meaning_over (meaning (executable_view executable.now)) turns rack.old rack.new)
        out.old out.new err.old err.new rack.old rack.new result }
{
    ended(run(alloc, executable, turns, rack, out, err))
}

// Reads a text to run it. Its program is never stuck.
fn read_text(alloc: Global, form: Form, text: &[u8]) -> Result<Executable, Stop>
    ensures { TellsRun form text.now result }
{
    accepted_programs_are_never_stuck();
    match form {
        Form::Source => read_source(alloc, text),
        Form::Written => read_program(alloc, text),
        Form::Recorded => read_source(alloc, text),
        Form::Generated(_) => read_source(alloc, text),
    }
}

// Runs the program of a generated text, and tells how that went.
fn run_told<O: Sink, E: Sink>(
    alloc: Global,
    number: u32,
    text: &[u8],
    executable: &Executable,
    turns: u64,
    out: &mut O,
    err: &mut E,
    rack: &mut Rack,
) -> Ending
    requires room { IsCrowded rack.old → ⊥ }
    requires made { text.now ≡ generated number }
    ensures { Carries O.held O.faults E.held E.faults
        (talk_by ⟦<dyn Link as Link>⟧) (faults_by ⟦<dyn Link as Link>⟧)
        (shown_over (Form.Generated number) (meaning (executable_view executable.now)) turns
        rack.old rack.new) out.old out.new err.old err.new rack.old rack.new result }
{
    let before = rack.log().len();
    let ending = run_over(alloc, executable, turns, out, err, rack);
    let told = Summary {
        number,
        bytes: text.len(),
        requests: rack.log().len() - before,
    };
    report(out, &told, ending)
}

// What was said since there were so many exchanges.
fn logged_since(rack: &Rack, before: usize) -> &[Logged]
    requires { before ≤ length (log_of rack.now) }
    ensures { result.now ≡ drop before (log_of rack.now) }
{
    &rack.log().as_slice()[before..]
}

// Runs a program over slots with these marks, and records what was said. What it puts on standard error isn't shown.
fn run_marked<O: Sink, E: Sink>(
    alloc: Global,
    marks: &List<(bool, Name)>,
    executable: &Executable,
    turns: u64,
    out: &mut O,
    err: &mut E,
    rack: &mut Rack,
) -> Ending
    requires room { IsCrowded rack.old → ⊥ }
    requires marked { marks.now ≡ marks_of (states (slots_of rack.old)) }
    ensures carried { Carries O.held O.faults E.held E.faults
        (talk_by ⟦<dyn Link as Link>⟧) (faults_by ⟦<dyn Link as Link>⟧)
        (shown_over Form.Recorded (meaning (executable_view executable.now)) turns
        rack.old rack.new) out.old out.new err.old err.new rack.old rack.new result }
    ensures recorded { RecordsAs E.held E.faults Form.Recorded err.old err.new rack.old rack.new }
{
    let before = rack.log().len();
    let mut unseen = Unseen;
    let ending = run_over(alloc, executable, turns, out, &mut unseen, rack);
    put_transcript(alloc, marks, logged_since(rack, before), ending, err)
}

// Runs a program and records what was said, if there is memory to begin.
fn run_recorded<O: Sink, E: Sink>(
    alloc: Global,
    executable: &Executable,
    turns: u64,
    out: &mut O,
    err: &mut E,
    rack: &mut Rack,
) -> Ending
    requires { IsCrowded rack.old → ⊥ }
    ensures carried { MayCarry O.held O.faults E.held E.faults
        (talk_by ⟦<dyn Link as Link>⟧) (faults_by ⟦<dyn Link as Link>⟧)
        (shown_over Form.Recorded (meaning (executable_view executable.now)) turns
        rack.old rack.new) out.old out.new err.old err.new rack.old rack.new result }
    ensures recorded { RecordsAs E.held E.faults Form.Recorded err.old err.new rack.old rack.new }
{
    match marks_of(alloc, rack.slots().as_slice()) {
        Ok(marks) => run_marked(alloc, &marks, executable, turns, out, err, rack),
        Err(OutOfMemory) => Ending::OutOfMemory,
    }
}

// Runs the program of a text of that form.
fn run_as<O: Sink, E: Sink>(
    alloc: Global,
    form: Form,
    text: &[u8],
    executable: &Executable,
    turns: u64,
    out: &mut O,
    err: &mut E,
    rack: &mut Rack,
) -> Ending
    requires room { IsCrowded rack.old → ⊥ }
    requires made { IsMadeFor form text.now }
    ensures carried { MayCarry O.held O.faults E.held E.faults
        (talk_by ⟦<dyn Link as Link>⟧) (faults_by ⟦<dyn Link as Link>⟧)
        (shown_over form (meaning (executable_view executable.now)) turns rack.old rack.new)
        out.old out.new err.old err.new rack.old rack.new result }
    ensures recorded { RecordsAs E.held E.faults form err.old err.new rack.old rack.new }
{
    match form {
        Form::Source => run_over(alloc, executable, turns, out, err, rack),
        Form::Written => run_over(alloc, executable, turns, out, err, rack),
        Form::Recorded => run_recorded(alloc, executable, turns, out, err, rack),
        Form::Generated(number) => {
            run_told(alloc, number, text, executable, turns, out, err, rack)
        }
    }
}

// Runs the program in a text, which is let go.
fn execute_text<O: Sink, E: Sink>(
    alloc: Global,
    form: Form,
    turns: u64,
    text: Bytes,
    out: &mut O,
    err: &mut E,
    rack: &mut Rack,
) -> Ending
    requires room { IsCrowded rack.old → ⊥ }
    requires made { IsMadeFor form text }
    ensures { ExecutesText O.held O.faults E.held E.faults
        (talk_by ⟦<dyn Link as Link>⟧) (faults_by ⟦<dyn Link as Link>⟧)
        form turns text out.old out.new err.old err.new rack.old rack.new result }
{
    runs_are_replayed();
    match read_text(alloc, form, text.as_slice()) {
        Ok(executable) => {
            run_as(
                alloc,
                form,
                text.as_slice(),
                &executable,
                turns,
                out,
                err,
                rack,
            )
        }
        Err(stop) => refused(stop),
    }
}

/// Runs the text of that form that the input gives or that is made, with so many turns. What it prints is passed on before
/// the ending is decided.
pub fn execute<I: Input, O: Sink, E: Sink>(
    alloc: Global,
    form: Form,
    turns: u64,
    input: &mut I,
    out: &mut O,
    err: &mut E,
    rack: &mut Rack,
) -> Ending
    ensures { Executes O.held O.faults E.held E.faults
        (talk_by ⟦<dyn Link as Link>⟧) (faults_by ⟦<dyn Link as Link>⟧)
        I.left I.faults form turns
        input.old input.new out.old out.new err.old err.new rack.old rack.new result }
{
    if is_crowded(rack) {
        return Ending::Limit(LimitKind::L7);
    }
    match take_text(alloc, form, input) {
        Ok(text) => execute_text(alloc, form, turns, text, out, err, rack),
        Err(ending) => ending,
    }
}
