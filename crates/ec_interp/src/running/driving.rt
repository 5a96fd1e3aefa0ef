//! The machine driven from step to step.

ghost use Rattle.std.specs.Prelude.{◌≡◌, ◌≤◌, ◌<◌, ◌+◌, ℕ, List, [], Ok, Option, Some, None, IfOk, OnOk, IfErr};
ghost use Rattle.ec_code.specs.declared.program.Function.{Function as FunctionData};
ghost use Rattle.ec_code.specs.Views.{function_view};
ghost use Rattle.ec_meaning_defs.specs.evaluation.Evaluate.{Step as Knowing};
ghost use Rattle.ec_meaning_defs.specs.evaluation.Whole.{main_run};
ghost use Rattle.ec_machine.specs.Goes.{at, tasks};
ghost use Rattle.ec_machine.specs.declared.frame.Focus.TheVariants as focuses;
ghost use Rattle.ec_machine.specs.Weights.{frames_weight, remaining, weight};
ghost use Rattle.ec_interp.specs.running.LibraryRuns.{ComesWith, Idle, HaltsOnce, HaltsWith, Nears, TakesTurn};
ghost use Rattle.ec_interp.specs.running.Runs.{answer_going, answer_with};
ghost use Rattle.ec_interp.specs.running.Sessions.{Going, SameLog, Session, Suits};

use crate::running::halt::{Halt, halt_for};
use crate::running::library::{Library, Progress};
use crate::running::printing::{put_text, value_of};
use ec_base::Sink;
use ec_code::Function;
use ec_machine::{Focus, Machine, last};
use ec_printf::formats::Channel;
use ec_values::Word;

/// Runs a machine from a focus to the end of the run. The library makes the calls.
///
/// Where the run is over, the outputs took all that it printed, the machine's memory is that of its end, and all that the
/// calls say was said. An output that failed, and one where there was no memory left, took the front of what is printed, and
/// a front of what the calls say was said. The run takes no more than the machine's turns.
pub fn run_on<'p, L: Library, O: Sink, E: Sink>(
    machine: &mut Machine<'p>,
    functions: &'p [Function],
    focus: Focus<'p>,
    library: &mut L,
    out: &mut O,
    err: &mut E,
) -> Halt
    ensures halts { HaltsWith O.held O.faults E.held E.faults machine.old.turns
        (λ k s. answer_with (L.knowing library.old) functions.now k machine.old focus.entry s)
        (L.session library.old) (L.session library.new) out.old out.new err.old err.new
        machine.new (L.knowing library.old) functions.now (L.going library.new) result }
    ensures same { L.knowing library.new ≡ L.knowing library.old }
    ensures quiet { SameLog (L.session library.old) (L.session library.new) }
    ensures led { L.leads library.old library.new }
    ensures turned { TakesTurn result machine.old.turns machine.new.turns
        (L.left library.new) }
    ensures idle { L.going library.old ≡ None → Idle result (L.going library.new) }
{
    let mut focus = focus;
    loop {
        match next_turn(machine, functions, focus, library, out, err) {
            Ok(next) => focus = next,
            Err(halt) => return halt,
        }
    }
}

/// Runs the first `main` of a program, over the objects that are there, to the end of the run. The library makes the calls.
///
/// The answers are those of `run_on`.
pub fn run_main<'p, L: Library, O: Sink, E: Sink>(
    machine: &mut Machine<'p>,
    functions: &'p [Function],
    main: &'p Function,
    library: &mut L,
    out: &mut O,
    err: &mut E,
) -> Halt
    requires no_frames { machine.old.frames ≡ [] }
    requires no_objects { machine.old.scope.count ≡ 0 }
    ensures halts { HaltsWith O.held O.faults E.held E.faults machine.old.turns
        (λ k s. main_run (L.knowing library.old) (tasks (L.knowing library.old) functions.now k)
        (Some (function_view main.now)) (at s machine.old))
        (L.session library.old) (L.session library.new) out.old out.new err.old err.new
        machine.new (L.knowing library.old) functions.now (L.going library.new) result }
    ensures same { L.knowing library.new ≡ L.knowing library.old }
    ensures quiet { SameLog (L.session library.old) (L.session library.new) }
    ensures led { L.leads library.old library.new }
    ensures turned { TakesTurn result machine.old.turns machine.new.turns
        (L.left library.new) }
    ensures idle { L.going library.old ≡ None → Idle result (L.going library.new) }
{
    match machine.enter_main(main) {
        Ok(focus) => run_on(machine, functions, focus, library, out, err),
        Err(stop) => halt_for(stop),
    }
}

/// Makes the request that waits, and runs on to the next request or to the end of the run.
///
/// The answers are those of `run_on`. One request is made, unless there was no memory for it.
pub fn resume_with<'p, L: Library, O: Sink, E: Sink>(
    machine: &mut Machine<'p>,
    functions: &'p [Function],
    library: &mut L,
    out: &mut O,
    err: &mut E,
) -> Halt
    ensures halts { (g : Going) → L.going library.old ≡ Some g
        → HaltsWith O.held O.faults E.held E.faults machine.old.turns
        (λ k s. answer_going (L.knowing library.old) functions.now k machine.old g s)
        (L.session library.old) (L.session library.new) out.old out.new err.old err.new
        machine.new (L.knowing library.old) functions.now (L.going library.new) result }
    ensures same { L.knowing library.new ≡ L.knowing library.old }
    ensures one { HaltsOnce result (L.session library.old) (L.session library.new) }
    ensures led { L.leads library.old library.new }
    ensures nears { Nears result machine.old.turns machine.new.turns (L.left library.old)
        (L.left library.new) }
    ensures idle { (g : Going) → L.going library.old ≡ Some g → Idle result (L.going library.new) }
{
    match library.resume(&mut machine.store, machine.line) {
        Ok(Progress::Asks) => Halt::Asks,
        Ok(Progress::Done) => {
            let focus = Focus::Value(value_of(None));
            run_on(machine, functions, focus, library, out, err)
        }
        Err(stop) => halt_for(stop),
    }
}

/// Runs a machine until a turn is taken.
fn next_turn<'p, L: Library, O: Sink, E: Sink>(
    machine: &mut Machine<'p>,
    functions: &'p [Function],
    focus: Focus<'p>,
    library: &mut L,
    out: &mut O,
    err: &mut E,
) -> Result<Focus<'p>, Halt>
    ensures goes { IfOk result (λ next. ComesWith O.held O.faults E.held E.faults machine.old.turns
        (λ k s. answer_with (L.knowing library.old) functions.now k machine.old focus.entry s)
        (L.session library.old) (L.session library.new) out.old out.new err.old err.new
        machine.new (L.knowing library.old) functions.now next) }
    ensures halts { IfErr result (λ halt. HaltsWith O.held O.faults E.held E.faults
        machine.old.turns
        (λ k s. answer_with (L.knowing library.old) functions.now k machine.old focus.entry s)
        (L.session library.old) (L.session library.new) out.old out.new err.old err.new
        machine.new (L.knowing library.old) functions.now (L.going library.new) halt) }
    ensures same { L.knowing library.new ≡ L.knowing library.old }
    ensures quiet { SameLog (L.session library.old) (L.session library.new) }
    ensures led { L.leads library.old library.new }
    ensures turned { IfErr result (λ halt. TakesTurn halt machine.old.turns machine.new.turns
        (L.left library.new)) }
    ensures idle_on { OnOk result (L.going library.old ≡ None → L.going library.new ≡ None) }
    ensures idle { IfErr result (λ halt. L.going library.old ≡ None
        → Idle halt (L.going library.new)) }
    ensures fewer { OnOk result (machine.new.turns < machine.old.turns) }
{
    let turns = machine.turns;
    let mut focus = focus;
    while machine.turns == turns {
        match advance(machine, functions, focus, library, out, err) {
            Ok(next) => focus = next,
            Err(halt) => return Err(halt),
        }
    }
    Ok(focus)
}

/// One step, with what it prints and the call that it makes.
fn advance<'p, L: Library, O: Sink, E: Sink>(
    machine: &mut Machine<'p>,
    functions: &'p [Function],
    focus: Focus<'p>,
    library: &mut L,
    out: &mut O,
    err: &mut E,
) -> Result<Focus<'p>, Halt>
    ensures goes { IfOk result (λ next. ComesWith O.held O.faults E.held E.faults machine.old.turns
        (λ k s. answer_with (L.knowing library.old) functions.now k machine.old focus.entry s)
        (L.session library.old) (L.session library.new) out.old out.new err.old err.new
        machine.new (L.knowing library.old) functions.now next) }
    ensures halts { IfErr result (λ halt. HaltsWith O.held O.faults E.held E.faults
        machine.old.turns
        (λ k s. answer_with (L.knowing library.old) functions.now k machine.old focus.entry s)
        (L.session library.old) (L.session library.new) out.old out.new err.old err.new
        machine.new (L.knowing library.old) functions.now (L.going library.new) halt) }
    ensures same { L.knowing library.new ≡ L.knowing library.old }
    ensures quiet { SameLog (L.session library.old) (L.session library.new) }
    ensures led { L.leads library.old library.new }
    ensures turned { IfErr result (λ halt. TakesTurn halt machine.old.turns machine.new.turns
        (L.left library.new)) }
    ensures idle_on { OnOk result (L.going library.old ≡ None → L.going library.new ≡ None) }
    ensures idle { IfErr result (λ halt. L.going library.old ≡ None
        → Idle halt (L.going library.new)) }
    ensures nears { IfOk result (λ next. remaining machine.old.turns (Ok next) machine.new ≤ weight
        machine.old.frames focus.entry) }
{
    match focus {
        Focus::Puts(channel, value) => print(machine, channel, value, out, err),
        Focus::Calls(number, count) => match library.start(
            &mut machine.store,
            &mut machine.turns,
            machine.line,
            machine.scope.objects(),
            number,
            last(&machine.values, count),
        ) {
            Ok(Progress::Done) => Ok(Focus::Value(value_of(None))),
            Ok(Progress::Asks) => Err(Halt::Asks),
            Err(stop) => Err(halt_for(stop)),
        },
        other => match machine.step(functions, other) {
            Ok(next) => Ok(next),
            Err(stop) => Err(halt_for(stop)),
        },
    }
}

/// The bytes of the machine's text go out, and the call that put them has this value.
fn print<'p, O: Sink, E: Sink>(
    machine: &Machine<'p>,
    channel: Channel,
    value: Option<Word>,
    out: &mut O,
    err: &mut E,
) -> Result<Focus<'p>, Halt>
    ensures goes { (functions : List FunctionData) (knowing : Knowing) (x : Option Session)
        → IfOk result (λ next. ComesWith O.held O.faults E.held E.faults machine.now.turns
        (λ k s. answer_with knowing functions k machine.now (focuses.Puts channel value) s) x x
        out.old out.new err.old err.new machine.now knowing functions next) }
    ensures halts { (functions : List FunctionData) (knowing : Knowing) → Suits knowing
        → (x : Option Session) (g : Option Going) → IfErr result (λ halt. HaltsWith O.held
        O.faults E.held E.faults machine.now.turns
        (λ k s. answer_with knowing functions k machine.now (focuses.Puts channel value) s) x x
        out.old out.new err.old err.new machine.now knowing functions g halt) }
    ensures turned { (n : ℕ) → IfErr result
        (λ halt. TakesTurn halt machine.now.turns machine.now.turns n) }
    ensures idle { (g : Option Going) → IfErr result (λ halt. g ≡ None → Idle halt g) }
    ensures nears { IfOk result (λ next. remaining machine.now.turns (Ok next) machine.now ≤
        frames_weight machine.now.frames + 1) }
{
    match put_text(channel, machine.text.as_slice(), out, err) {
        Ok(()) => Ok(Focus::Value(value_of(value))),
        Err(_failed) => Err(Halt::WriteFault),
    }
}
