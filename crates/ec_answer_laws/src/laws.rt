//! What holds of every program with one answer more, as the contracts of functions that do nothing.

ghost use Rattle.std.specs.Prelude.{◌≡◌, ℕ, List, ◌∷◌, [], ◌++◌, Option};
ghost use Rattle.ec_arguments.specs.Arguments.{Arg};
ghost use Rattle.ec_ctypes.specs.declared.checked.library.LibName.{LibName};
ghost use Rattle.ec_meaning_defs.specs.resolved.Programs.{Program};
ghost use Rattle.ec_meaning_defs.specs.resolved.Resolved.{Exp};
ghost use Rattle.ec_link.specs.declared.request.Request.{Request};
ghost use Rattle.ec_meaning_defs.specs.evaluation.State.{Answer, waits};
ghost use Rattle.ec_meaning_defs.specs.evaluation.Evaluate.{Step};
ghost use Rattle.ec_meaning_defs.specs.evaluation.Whole.{program_meaning};
ghost use Rattle.ec_meaning_defs.specs.evaluation.Agree.{IsWaiting, TakesMoreAnswers};
ghost use Rattle.ec_call_defs.specs.Steps.{library_step};
ghost use Rattle.ec_answer_laws.specs.OneMore.{GoesOnFrom};

/// Over any step that takes further answers as whole runs do: a run that doesn't wait shows the same with answers more. One
/// that waits goes on with an answer more: what it printed and said are fronts of what is printed and said then, and the
/// first that is said behind them is the request that waited, with this answer.
pub fn one_answer_more()
    ensures unchanged { (step : Step) → TakesMoreAnswers step → (p : Program) (turns : ℕ)
        (ready : Option (ℕ × List ℕ)) (answers more : List Answer)
        → (IsWaiting (program_meaning step p turns ready answers).ending → ⊥)
        → program_meaning step p turns ready (answers ++ more)
        ≡ program_meaning step p turns ready answers }
    ensures goes_on { (step : Step) → TakesMoreAnswers step → (p : Program) (turns : ℕ)
        (ready : Option (ℕ × List ℕ)) (answers : List Answer) (a : Answer)
        (slot : Option ℕ) (request : Request)
        → (program_meaning step p turns ready answers).ending ≡ waits slot request
        → GoesOnFrom slot request a (program_meaning step p turns ready answers)
        (program_meaning step p turns ready (answers ++ a ∷ [])) }
{}

/// So it is with programs that call the library.
pub fn library_programs()
    ensures unchanged { (calls : List (LibName × List (Arg Exp))) (p : Program) (turns : ℕ)
        (ready : Option (ℕ × List ℕ)) (answers more : List Answer)
        → (IsWaiting (program_meaning (library_step calls) p turns ready answers).ending → ⊥)
        → program_meaning (library_step calls) p turns ready (answers ++ more)
        ≡ program_meaning (library_step calls) p turns ready answers }
    ensures goes_on { (calls : List (LibName × List (Arg Exp))) (p : Program) (turns : ℕ)
        (ready : Option (ℕ × List ℕ)) (answers : List Answer) (a : Answer)
        (slot : Option ℕ) (request : Request)
        → (program_meaning (library_step calls) p turns ready answers).ending ≡ waits slot request
        → GoesOnFrom slot request a (program_meaning (library_step calls) p turns ready answers)
        (program_meaning (library_step calls) p turns ready (answers ++ a ∷ [])) }
{}
