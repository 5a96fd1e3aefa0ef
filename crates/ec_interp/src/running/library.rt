//! Calls of a library.

ghost use Rattle.std.specs.Prelude.{◌≡◌, ◌≤◌, ◌<◌, ◌^◌, map, Some, IfOk};
ghost use Rattle.ec_interp.specs.declared.running.library.Progress.TheVariants.{Asks};
ghost use Rattle.ec_interp.specs.running.Sessions.{AsksOnce, Going, Resumed, SameLog, Started};
ghost use Rattle.ec_values.specs.Words.{word_view};

use ec_base::Line;
use ec_bytes::Ptr;
use ec_machine::Stop;
use ec_memory::Store;
use ec_values::Word;

/// How far a call came.
#[derive(Clone, Copy)]
pub enum Progress {
    /// It has a request to make, which waits.
    Asks,
    /// It is done.
    Done,
}

/// What makes the calls of the library in a program. A call stops before each of its requests, and is gone on with by
/// `resume`.
pub trait Library {
    ghost use Rattle.std.specs.Prelude.{◌≡◌, Option, Some, ℕ};
    ghost use Rattle.ec_meaning_defs.specs.evaluation.Agree.{Grows, state_of};
    ghost use Rattle.ec_meaning_defs.specs.evaluation.Evaluate.{Step as Knowing};
    ghost use Rattle.ec_meaning_defs.specs.evaluation.State.{State};
    ghost use Rattle.ec_link.specs.declared.request.Request.{Request};
    ghost use Rattle.ec_interp.specs.running.Sessions.{Going, Session, Suits, WaitsFor};

    /// What the calls do, by their numbers: the step of a run that makes them.
    ghost knowing: { Self → Knowing };

    /// What is known of the state of a run beside its memory, where anything is.
    ghost session: { Self → Option Session };

    /// What a call that waits with a request still has to do, by the line of its statement, where one waits.
    ghost going: { Self → Option Going };

    /// The request that waits, and the slot of its connection.
    ghost asking: { Self → Option (Option ℕ × Request) };

    /// How many requests the call that waits may still make behind the one that waits.
    ghost left: { Self → ℕ };

    /// What calls leave: how a library may stand behind some of them, by how it stood before.
    ghost leads: { Self → Self → Type 0 };

    /// Begins a call whose first pointers have these values, with the objects in scope by their pointers, and goes on to its
    /// first request or its end. Its traps are at this line. Nothing is asked.
    fn start(
        &mut self,
        store: &mut Store,
        turns: &mut u64,
        line: Line,
        scope: &[Ptr],
        number: u32,
        given: &[Word],
    ) -> Result<Progress, Stop>
        ensures same { knowing self.new ≡ knowing self.old }
        ensures started { Started (knowing self.old) number (map word_view given.now) line.0
            scope.now store.old turns.old (session self.old) store.new turns.new (session self.new)
            (going self.new) result }
        ensures quiet { SameLog (session self.old) (session self.new) }
        ensures led { leads self.old self.new }
        ensures fewer { turns.new ≤ turns.old }
        ensures turned { IfOk result (λ p. p ≡ Asks → (turns.new < turns.old)
            × (left self.new < 2 ^ 64)) };

    /// Makes the request that waits, and goes on to the next request of the call or its end. Its traps are at this line.
    ///
    /// After want of memory the request may not have been made.
    fn resume(&mut self, store: &mut Store, line: Line) -> Result<Progress, Stop>
        ensures same { knowing self.new ≡ knowing self.old }
        ensures resumed { (g : Going) → going self.old ≡ Some g → Resumed g line.0
            store.old (session self.old) store.new (session self.new) (going self.new) result }
        ensures one { AsksOnce result (session self.old) (session self.new) }
        ensures nears { IfOk result (λ p. p ≡ Asks → left self.new < left self.old) }
        ensures led { leads self.old self.new };

    /// Whole runs go by the step.
    ghost suits: { (x : Self) → Suits (knowing x) };

    /// A call that waits only adds to what was said.
    ghost adds: { (x : Self) (g : Going) → going x ≡ Some g → (line : ℕ) (s : State)
        → Grows s (state_of (g line s)) };

    /// It waits with its request where there is no answer.
    ghost waits: { (x : Self) → WaitsFor (going x) (asking x) };

    /// Without a call it stands where it stood.
    ghost stays: { (x : Self) → leads x x };

    /// Some calls and then some more are calls too.
    ghost goes_on: { (x y z : Self) → leads x y → leads y z → leads x z };
}
