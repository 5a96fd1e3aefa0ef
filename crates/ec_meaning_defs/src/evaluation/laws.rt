//! What holds of every program, as the contracts of functions that do nothing. A step does what the statements do that only
//! it knows: embedded statements, and calls of the library.

ghost use Rattle.std.specs.Prelude.{◌≡◌, ℕ, ◌≤◌, List, []};
ghost use Rattle.ec_meaning_defs.specs.resolved.Programs.{Program};
ghost use Rattle.ec_meaning_defs.specs.resolved.Resolved.{Stm};
ghost use Rattle.ec_meaning_defs.specs.evaluation.State.{Answer, State};
ghost use Rattle.ec_meaning_defs.specs.evaluation.Evaluate.{Step};
ghost use Rattle.ec_meaning_defs.specs.evaluation.Whole.{whole, whole_within, without_atoms};
ghost use Rattle.ec_meaning_defs.specs.evaluation.Examples.{as_call, asking};
ghost use Rattle.ec_meaning_defs.specs.evaluation.Expanded.{written_program};
ghost use Rattle.ec_meaning_defs.specs.evaluation.Agree.{Agree, Always, Never, IsSpent, IsWaiting, IsNot, Any, GoesOn, Extends, state_of, richer, richer_result, CountsTurns, OnlyAdds, TakesMoreTurns, TakesMoreAnswers};

/// Two steps that agree give one meaning: a program means under the first what the program with a statement in the place of
/// each embedded one means under the second, from every state.
pub fn steps_that_agree()
    ensures { (step step' : Step) (text : ℕ → Stm)
        → Agree Always Never Any 0 [] step step' text → (p : Program) (s : State)
        → whole step p s ≡ whole step' (written_program text p) s }
{}

/// A run ends within its turns: tasks of more turns than a run has do the same.
pub fn runs_end_within_their_turns()
    ensures { (step : Step) → CountsTurns step → (p : Program) (n : ℕ) (s : State) → s.turns ≤ n
        → whole_within step p n s ≡ whole step p s }
{}

/// More turns than needed change nothing: they are left at the end.
pub fn more_turns_change_nothing()
    ensures { (step : Step) → CountsTurns step → TakesMoreTurns step → (p : Program) (s : State)
        (d : ℕ) → IsNot IsSpent (whole step p s)
        → whole step p (richer d [] s) ≡ richer_result d [] (whole step p s) }
{}

/// Further answers change nothing in a run that doesn't wait for one: they are left at the end. A run that waited goes on
/// from there: what it printed and said are fronts of what is printed and said now, and the first that is said behind them
/// is the request that had no answer, with the first of the further answers.
pub fn further_answers()
    ensures not_waiting { (step : Step) → TakesMoreAnswers step → (p : Program) (s : State)
        (more : List Answer) → IsNot IsWaiting (whole step p s)
        → whole step p (richer 0 more s) ≡ richer_result 0 more (whole step p s) }
    ensures waiting { (step : Step) → TakesMoreAnswers step → (p : Program) (s : State)
        (more : List Answer) → GoesOn more (whole step p s) (whole step p (richer 0 more s)) }
{}

/// A run only adds to what was printed and said, and takes no turn back.
pub fn runs_only_add()
    ensures { (step : Step) → OnlyAdds step
        → (p : Program) (s : State) → Extends s (state_of (whole step p s)) }
{}

/// The laws hold of programs without embedded statements and calls of the library.
pub fn plain_programs()
    ensures counts { CountsTurns without_atoms }
    ensures adds { OnlyAdds without_atoms }
    ensures takes_turns { TakesMoreTurns without_atoms }
    ensures takes_answers { TakesMoreAnswers without_atoms }
{}

/// They hold of programs whose embedded statements and calls of the library take a turn, make a request, and take its answer
/// or wait for it. Such an embedded statement means what a call of the library in its place does.
pub fn asking_programs()
    ensures counts { CountsTurns asking }
    ensures adds { OnlyAdds asking }
    ensures takes_turns { TakesMoreTurns asking }
    ensures takes_answers { TakesMoreAnswers asking }
    ensures calls_in_place { (p : Program) (s : State)
        → whole asking p s ≡ whole asking (written_program as_call p) s }
{}
