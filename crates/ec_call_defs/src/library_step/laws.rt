//! What holds of the step that makes the calls of a program.

ghost use Rattle.std.specs.Prelude.{List};
ghost use Rattle.ec_arguments.specs.Arguments.{Arg};
ghost use Rattle.ec_ctypes.specs.declared.checked.library.LibName.{LibName};
ghost use Rattle.ec_meaning_defs.specs.resolved.Resolved.{Exp};
ghost use Rattle.ec_meaning_defs.specs.evaluation.Agree.{CountsTurns, OnlyAdds, TakesMoreTurns, TakesMoreAnswers};
ghost use Rattle.ec_call_defs.specs.Steps.{library_step};

/// The laws on whole runs hold of programs that call the library: a run does the same however many turns its tasks may take
/// beyond those that are left; it only adds to what was printed and said; more turns than it needs are left at its end; and
/// further answers are left there too, or a run that waited for one goes on with the first of them.
pub fn library_steps_keep_the_laws()
    ensures counts { (calls : List (LibName × List (Arg Exp))) → CountsTurns (library_step calls) }
    ensures adds { (calls : List (LibName × List (Arg Exp))) → OnlyAdds (library_step calls) }
    ensures takes_turns { (calls : List (LibName × List (Arg Exp)))
        → TakesMoreTurns (library_step calls) }
    ensures takes_answers { (calls : List (LibName × List (Arg Exp)))
        → TakesMoreAnswers (library_step calls) }
{}
