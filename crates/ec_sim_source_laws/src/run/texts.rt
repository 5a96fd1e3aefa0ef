//! What holds of the text that is written of an accepted source.

ghost use Rattle.std.specs.Prelude.{Result};
ghost use Rattle.ec_base.specs.declared.stop.Stop.{Stop};
ghost use Rattle.ec_execution_defs.specs.Programs.{Executable, IsProgram};
ghost use Rattle.ec_language.specs.Letters.{Text};
ghost use Rattle.ec_phases_defs.specs.Sources.{BoundProgram};
ghost use Rattle.ec_phases_defs.specs.translation.Translations.{text_of_program};
ghost use Rattle.ec_phases_defs.specs.translation.Accepted.{IsAcceptedText};
ghost use Rattle.ec_sim_source_laws.specs.run.Runs.{IsReadBackAs, IsRunOf, KeepsItsMeaning};

use crate::meaning::sources_mean_what_is_written;
use crate::section::written_programs_have_no_sections;
use ec_readback_laws::written_programs_are_read_back;
use ec_written_laws::written_sources::sources_are_written_in_shape;

/// The text that is written of an accepted source is run as the program that is written, which means what the source means;
/// unless it passes a limit.
#[tactic(none)]
pub fn written_texts_are_run()
    ensures { (text : Text) (p : BoundProgram) → IsAcceptedText text p
        → (x : Result Executable Stop) → IsProgram (text_of_program p) x → IsRunOf p x }
{
    sources_mean_what_is_written();
    written_programs_are_read_back();
    written_programs_have_no_sections();
    sources_are_written_in_shape();
}

/// The text that is written of an accepted source is read back as the program that is written, without a fault, unless it passes a
/// limit; and that program means what the source means, run over the definition of the library with all its calls.
#[tactic(none)]
pub fn written_texts_mean_the_same()
    ensures read { (text : Text) (p : BoundProgram) → IsAcceptedText text p
        → IsReadBackAs p (text_of_program p) }
    ensures means { (text : Text) (p : BoundProgram) → IsAcceptedText text p → KeepsItsMeaning p }
{
    sources_mean_what_is_written();
    written_programs_are_read_back();
    written_programs_have_no_sections();
    sources_are_written_in_shape();
}
