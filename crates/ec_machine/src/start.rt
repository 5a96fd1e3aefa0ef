//! The beginning of a run.

ghost use Rattle.std.specs.Prelude.{◌≡◌, ◌<◌, ◌≤◌, ℕ, List, [], Some};
ghost use Rattle.ec_code.specs.declared.program.Function.{Function as FunctionData};
ghost use Rattle.ec_code.specs.Views.{function_view};
ghost use Rattle.ec_meaning_defs.specs.evaluation.Evaluate.{Step as Knowing};
ghost use Rattle.ec_meaning_defs.specs.evaluation.State.{State};
ghost use Rattle.ec_meaning_defs.specs.evaluation.Whole.{main_run};
ghost use Rattle.ec_machine.specs.Goes.{Fits, Stands, at, tasks};

use crate::frame::{Flow, Focus, Frame};
use crate::machine::Machine;
use crate::making::{make_objects, no_room};
use crate::scope::Scope;
use crate::stop::Stop;
use ec_base::{Bytes, Line, List};
use ec_code::Function;
use ec_memory::Store;
use std::alloc::Global;

impl<'p> Machine<'p> {
    /// A machine that has done nothing yet, with so many turns. It takes no memory.
    pub fn new(alloc: Global, turns: u64) -> Machine<'p>
        ensures store { result.store ≡ [] }
        ensures turns { result.turns ≡ turns }
        ensures no_frames { result.frames ≡ [] }
        ensures no_objects { result.scope.count ≡ 0 }
    {
        Machine {
            store: Store::new(alloc),
            turns,
            line: Line(1),
            frames: List::new(alloc),
            scope: Scope::new(alloc),
            first: true,
            values: List::new(alloc),
            otherwise: None,
            text: Bytes::new(alloc),
        }
    }

    /// The first `main` is begun on line 1, over the objects that are there: those of its body are
    /// made. This costs no turn (ISO/IEC 9899:1999, 5.1.2.2.1).
    pub fn enter_main(&mut self, main: &'p Function) -> Result<Focus<'p>, Stop>
        requires no_frames { self.old.frames ≡ [] }
        requires no_objects { self.old.scope.count ≡ 0 }
        ensures stands { (functions : List FunctionData) (knowing : Knowing) → Fits knowing
            → (k : ℕ) (s : State) → self.old.turns < k
            → Stands knowing (tasks knowing functions k) s self.new result
            (main_run knowing (tasks knowing functions k) (Some (function_view main.now))
            (at s self.old)) }
        ensures turns { self.new.turns ≤ self.old.turns }
    {
        self.line = Line(1);
        self.first = true;
        self.otherwise = main.otherwise;
        match make_objects(&mut self.store, &mut self.scope, main.objects.as_slice()) {
            Ok(()) => (),
            Err(why) => return Err(no_room(Line(1), why)),
        }
        let body = main.body.as_slice();
        self.frames.push(Frame::Settle(Line(1), body))?;
        self.frames.push(Frame::Rest(Line(1), body))?;
        Ok(Focus::Leads(Flow::On))
    }
}
