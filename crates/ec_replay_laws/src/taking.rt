//! How a program takes the answers that come, as the contract of a function that does nothing.

ghost use Rattle.std.specs.Prelude.{ℕ, List, Option};
ghost use Rattle.ec_arguments.specs.Arguments.{Arg};
ghost use Rattle.ec_ctypes.specs.declared.checked.library.LibName.{LibName};
ghost use Rattle.ec_call_defs.specs.Steps.{library_step};
ghost use Rattle.ec_meaning_defs.specs.evaluation.Whole.{program_meaning};
ghost use Rattle.ec_meaning_defs.specs.resolved.Programs.{Program};
ghost use Rattle.ec_meaning_defs.specs.resolved.Resolved.{Exp};
ghost use Rattle.ec_replay_laws.specs.Taking.{TakesExactly};

/// A program that calls the library takes its answers one by one, each exactly where its request stands: where its run
/// waits for none, further answers change nothing, and where it waits, all were taken, and the next one makes the next
/// exchange, of the request that waits. That has the slot of its connection, or, where it asks for one, the answer's.
pub fn answers_are_taken_exactly()
    ensures { (calls : List (LibName × List (Arg Exp))) (p : Program) (turns : ℕ)
        → TakesExactly (λ ready answers. program_meaning (library_step calls) p turns ready answers) }
{}
