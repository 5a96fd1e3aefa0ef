//! What holds of sound programs, as the contracts of functions that do nothing.

ghost use Rattle.std.specs.Prelude.{◌≡◌, ℕ, true, List, Option};
ghost use Rattle.ec_arguments.specs.Arguments.{Arg};
ghost use Rattle.ec_ctypes.specs.declared.checked.library.LibName.{LibName};
ghost use Rattle.ec_meaning_defs.specs.resolved.Programs.{Program};
ghost use Rattle.ec_meaning_defs.specs.resolved.Resolved.{Exp};
ghost use Rattle.ec_meaning_defs.specs.evaluation.State.{Answer};
ghost use Rattle.ec_meaning_defs.specs.evaluation.Whole.{program_meaning, without_atoms};
ghost use Rattle.ec_call_defs.specs.Steps.{library_step};
ghost use Rattle.ec_sound_defs.specs.Sound.{Signature, SoundProgram, no_atoms};
ghost use Rattle.ec_sound_defs.specs.Computed.{is_sound_program};
ghost use Rattle.ec_sound_defs.specs.Outcomes.{IsNotStuck};
ghost use Rattle.ec_sound_defs.specs.Written.{library_atoms};

/// A sound program without embedded statements and calls of the library is never stuck: whatever its turns, its
/// connection and its answers.
pub fn sound_programs_are_never_stuck()
    ensures { (signatures : List Signature) (p : Program) → SoundProgram signatures no_atoms p
        → (turns : ℕ) (ready : Option (ℕ × List ℕ)) (answers : List Answer)
        → IsNotStuck (program_meaning without_atoms p turns ready answers).ending }
{}

/// A sound program of written C, which calls the library, is never stuck: whatever its turns, its connection and its
/// answers.
pub fn sound_written_programs_are_never_stuck()
    ensures { (signatures : List Signature) (calls : List (LibName × List (Arg Exp))) (p : Program)
        → SoundProgram signatures (library_atoms signatures calls) p
        → (turns : ℕ) (ready : Option (ℕ × List ℕ)) (answers : List Answer)
        → IsNotStuck (program_meaning (library_step calls) p turns ready answers).ending }
{}

/// What is computed to be sound is sound, and so it is never stuck.
pub fn what_is_computed_is_sound()
    ensures { (signatures : List Signature) (p : Program) → is_sound_program signatures p ≡ true
        → SoundProgram signatures no_atoms p }
{}
