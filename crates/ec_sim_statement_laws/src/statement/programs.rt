//! What holds of whole programs.

ghost use Rattle.std.specs.Prelude.{◌≡◌, ℕ, false, List, Option};
ghost use Rattle.ec_ctypes.specs.trees.Checked.{TypedData};
ghost use Rattle.ec_meaning_defs.specs.resolved.Programs.{Program};
ghost use Rattle.ec_meaning_defs.specs.resolved.Resolved.{Stm};
ghost use Rattle.ec_resolving_defs.specs.Storage.{LibraryCall, StatementForm};
ghost use Rattle.ec_resolving_defs.specs.Programs.{resolve, embedded_statements_of};
ghost use Rattle.ec_meaning_defs.specs.evaluation.State.{Answer, State};
ghost use Rattle.ec_meaning_defs.specs.evaluation.Expanded.{written_program};
ghost use Rattle.ec_meaning_defs.specs.evaluation.Whole.{whole, program_meaning};
ghost use Rattle.ec_call_defs.specs.Steps.{library_step};
ghost use Rattle.ec_direct_defs.specs.Direct.{direct_step, direct_meaning};
ghost use Rattle.ec_sim_statement_laws.specs.statement.Clean.{CleanProgram};
ghost use Rattle.ec_sim_statement_laws.specs.statement.Copies.{IsProgramCopy};
ghost use Rattle.ec_sim_statement_laws.specs.statement.Whole.{IsWrittenAt};

/// A program with a block in the place of each embedded statement, run over the library, does what the program does by its
/// embedded statements: from every state to the same result, with every object the same. So the source means what this
/// program means, for every number of turns, every connection and all answers.
#[tactic(none)]
pub fn written_programs_do_what_sources_do()
    ensures states { (t : TypedData) (forms : List StatementForm) (calls : List LibraryCall)
        (text : ℕ → Stm) (p : Program) → CleanProgram (IsWrittenAt t forms calls text) p
        → (s : State) → whole (direct_step t forms) p s
        ≡ whole (library_step calls) (written_program text p) s }
    ensures meanings { (t : TypedData) (calls : List LibraryCall) (text : ℕ → Stm)
        → CleanProgram (IsWrittenAt t (embedded_statements_of false t.unit) calls text)
        (resolve false t.unit)
        → (turns : ℕ) (ready : Option (ℕ × List ℕ)) (answers : List Answer)
        → direct_meaning t turns ready answers
        ≡ program_meaning (library_step calls) (written_program text (resolve false t.unit)) turns
        ready answers }
{}

/// A program that is a copy of another, run over the library, does what the other does by its embedded statements: from
/// every state to the same result, with every object the same. In the copy a block stands in the place of each embedded
/// statement, on the statement's line, with the call of the library that is written for it and the tests behind it; what
/// directives and marks leave may be gone; and the objects of one declaration may be declared one by one, on its line. The
/// rest is the same on the same lines, and no expression of it calls the library. So the source means what any copy of it
/// means, for every number of turns, every connection and all answers.
#[tactic(none)]
pub fn copies_do_what_sources_do()
    ensures states { (t : TypedData) (forms : List StatementForm) (calls : List LibraryCall)
        (p q : Program)
        → IsProgramCopy (λ line n x. IsWrittenAt t forms calls (λ _. x) line n) p q
        → (s : State) → whole (direct_step t forms) p s ≡ whole (library_step calls) q s }
    ensures meanings { (t : TypedData) (calls : List LibraryCall) (q : Program)
        → IsProgramCopy
        (λ line n x. IsWrittenAt t (embedded_statements_of false t.unit) calls (λ _. x) line n)
        (resolve false t.unit) q
        → (turns : ℕ) (ready : Option (ℕ × List ℕ)) (answers : List Answer)
        → direct_meaning t turns ready answers
        ≡ program_meaning (library_step calls) q turns ready answers }
{}
