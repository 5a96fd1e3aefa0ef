//! What holds of programs of written C.

ghost use Rattle.ec_execution_defs.specs.Laws.{HasOneProgram, HasProgram};

use ec_phases_defs::written::written_is_read;

/// Each text is run as one program, or is refused for one reason.
#[tactic(none)]
pub fn written_programs_are_single()
    ensures one { HasOneProgram }
    ensures there { HasProgram }
{
    written_is_read();
}
