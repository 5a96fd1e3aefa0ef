//! The machine, and its run.

ghost use Rattle.std.specs.Prelude.{◌≡◌, ℕ, List, [], None, Some, map, slice_get};
ghost use Rattle.std.specs.Option.{option_copied, option_map};
ghost use Rattle.ec_code.specs.Views.{function_view, program_view};
ghost use Rattle.ec_meaning_defs.specs.evaluation.Whole.{main_run, program_meaning};
ghost use Rattle.ec_machine.specs.Goes.{at, tasks};
ghost use Rattle.ec_link.specs.declared.logged.Logged.{Logged};
ghost use Rattle.ec_meaning_defs.specs.observed.Observed.{answers_in};
ghost use Rattle.ec_interp.specs.running.LibraryRuns.{Idle, HaltsOnce, HaltsWith, Nears, TakesTurn};
ghost use Rattle.ec_interp.specs.declared.end.Step.TheVariants as steps;
ghost use Rattle.ec_interp.specs.running.Sessions.{Going, SameLog, Session};
ghost use Rattle.ec_interp.specs.Ends.{halt_of};
ghost use Rattle.ec_interp.specs.Stepping.{IsAsking, IsNew, Steps};

use crate::end::{RunEnd, Step, step_of, unopened};
use crate::opening::open_program;
use crate::running::{Halt, Library, resume_with, run_main};
use ec_base::Sink;
use ec_code::{Function, Program};
use ec_machine::{End, Machine as Frames};
use ec_memory::Store;
use std::alloc::Global;

/// A machine for a program. It isn't let go by itself: `give_up` takes it apart.
pub struct Machine<'p> {
    pub program: &'p Program,
    pub frames: Frames<'p>,
}

impl<'p> Machine<'p> {
    /// A machine that has not run its program yet. It takes no memory.
    pub fn new(alloc: Global, program: &'p Program) -> Machine<'p>
        ensures program { result.program.now ≡ program.now }
        ensures new { IsNew result }
    {
        Machine {
            program,
            frames: Frames::new(alloc, 0),
        }
    }

    /// Runs the program from its beginning up to its first request, or to the end of the run, within so many turns, and puts
    /// what it prints into two sinks. The library makes its calls.
    pub fn begin<L: Library, O: Sink, E: Sink>(
        &mut self,
        turns: u64,
        library: &mut L,
        out: &mut O,
        err: &mut E,
    ) -> Step
        requires new { IsNew self.old }
        ensures steps { (x : Session) → L.session library.old ≡ Some x
            → Steps O.held O.faults E.held E.faults (L.knowing library.old)
            self.old.program.now turns x [] (λ ready. []) (λ ready. [])
            (L.session library.new) (L.going library.new) (L.asking library.new)
            out.old out.new err.old err.new self.new.frames result }
        ensures quiet { SameLog (L.session library.old) (L.session library.new) }
        ensures turned { TakesTurn (halt_of result) turns self.new.frames.turns
            (L.left library.new) }
        ensures idle { L.going library.old ≡ None
            → Idle (halt_of result) (L.going library.new) }
        ensures led { L.leads library.old library.new }
        ensures same { L.knowing library.new ≡ L.knowing library.old }
        ensures program { self.new.program.now ≡ self.old.program.now }
    {
        self.frames.turns = turns;
        match open_program(&mut self.frames.store, self.program) {
            Ok(()) => step_of(run_opened(&mut self.frames, self.program, library, out, err)),
            Err(why) => Step::Ended(unopened(why)),
        }
    }

    /// Makes the request that waits, and runs on to the next request or to the end of the run.
    ///
    /// Where neither a sink failed nor memory was wanting, one request was made, and the run waits or ends as the one that the
    /// program means over the answers so far and this one; the sinks took the rest of what it prints, and the memory is its
    /// memory. Else fronts of that were printed and said.
    pub fn advance<L: Library, O: Sink, E: Sink>(
        &mut self,
        library: &mut L,
        out: &mut O,
        err: &mut E,
    ) -> Step
        ensures steps { (turns : ℕ) (x : Session) (said : List Logged)
            → IsAsking (L.knowing library.old) self.old.program.now turns x said
            (L.session library.old) (L.going library.old) self.old.frames
            → Steps O.held O.faults E.held E.faults (L.knowing library.old)
            self.old.program.now turns x said
            (λ ready. (program_meaning (L.knowing library.old) (program_view self.old.program.now)
            turns ready (answers_in said)).output)
            (λ ready. (program_meaning (L.knowing library.old) (program_view self.old.program.now)
            turns ready (answers_in said)).errors)
            (L.session library.new) (L.going library.new) (L.asking library.new)
            out.old out.new err.old err.new self.new.frames result }
        ensures one { HaltsOnce (halt_of result) (L.session library.old) (L.session library.new) }
        ensures idle { (g : Going) → L.going library.old ≡ Some g
            → Idle (halt_of result) (L.going library.new) }
        ensures nears { Nears (halt_of result) self.old.frames.turns self.new.frames.turns
            (L.left library.old) (L.left library.new) }
        ensures led { L.leads library.old library.new }
        ensures same { L.knowing library.new ≡ L.knowing library.old }
        ensures program { self.new.program.now ≡ self.old.program.now }
    {
        let functions = self.program.functions.as_slice();
        step_of(resume_with(&mut self.frames, functions, library, out, err))
    }

    /// Runs the program from its beginning to the end of the run, within so many turns: one step behind the other.
    pub fn go<L: Library, O: Sink, E: Sink>(
        &mut self,
        turns: u64,
        library: &mut L,
        out: &mut O,
        err: &mut E,
    ) -> RunEnd
        requires new { IsNew self.old }
        ensures steps { (x : Session) → L.session library.old ≡ Some x
            → Steps O.held O.faults E.held E.faults (L.knowing library.old)
            self.old.program.now turns x [] (λ ready. []) (λ ready. [])
            (L.session library.new) (L.going library.new) (L.asking library.new)
            out.old out.new err.old err.new self.new.frames (steps.Ended result) }
        ensures idle { (x : Session) → L.session library.old ≡ Some x
            → L.going library.old ≡ None → L.going library.new ≡ None }
        ensures led { L.leads library.old library.new }
        ensures same { L.knowing library.new ≡ L.knowing library.old }
        ensures program { self.new.program.now ≡ self.old.program.now }
    {
        let mut step = self.begin(turns, library, out, err);
        'asks: loop {
            match step {
                Step::Ended(end) => return end,
                Step::Asks => step = self.advance(library, out, err),
            }
        }
    }

    /// The memory: behind a run, that at its end.
    pub fn store(&self) -> &Store
        ensures { result.now ≡ self.now.frames.store }
    {
        &self.frames.store
    }

    /// Takes the machine apart. It takes no memory.
    pub fn give_up(self) {
        let Machine { program: _, frames } = self;
        drop(frames);
    }
}

/// Runs the first `main` of a program, over the objects that are there. The library makes its
/// calls.
fn run_opened<'p, L: Library, O: Sink, E: Sink>(
    frames: &mut Frames<'p>,
    program: &'p Program,
    library: &mut L,
    out: &mut O,
    err: &mut E,
) -> Halt
    requires no_frames { frames.old.frames ≡ [] }
    requires no_objects { frames.old.scope.count ≡ 0 }
    ensures halts { HaltsWith O.held O.faults E.held E.faults frames.old.turns
        (λ k s. main_run (L.knowing library.old)
        (tasks (L.knowing library.old) program.now.functions k)
        (slice_get (program_view program.now).functions program.now.main) (at s frames.old))
        (L.session library.old) (L.session library.new) out.old out.new err.old err.new
        frames.new (L.knowing library.old) program.now.functions (L.going library.new) result }
    ensures quiet { SameLog (L.session library.old) (L.session library.new) }
    ensures turned { TakesTurn result frames.old.turns frames.new.turns (L.left library.new) }
    ensures idle { L.going library.old ≡ None → Idle result (L.going library.new) }
    ensures led { L.leads library.old library.new }
    ensures same { L.knowing library.new ≡ L.knowing library.old }
{
    let functions = program.functions.as_slice();
    match function_at(functions, program.main) {
        Some(main) => run_main(frames, functions, main, library, out, err),
        None => Halt::Over(End::Stuck),
    }
}

/// The function of this number.
fn function_at<'p>(functions: &'p [Function], number: u32) -> Option<&'p Function>
    ensures { option_map function_view (option_copied result)
        ≡ slice_get (map function_view functions.now) number }
{
    functions.get(number as usize)
}
