//! What holds of the phases, and of written calls, as the contracts of functions that do nothing.

ghost use Rattle.ec_phases_defs.specs.written.Calls.{AreCutBack, AreTaken};
ghost use Rattle.ec_phases_defs.specs.written.Laws.{HasOneReading, IsRead};

use ec_grammar::exact::readings_are_single;

/// Each text is read as one program of written C, or refused for one reason.
#[tactic(none)]
pub fn written_is_read()
    ensures one { HasOneReading }
    ensures read { IsRead }
{
    readings_are_single();
}

/// A call of the library that keeps the rules is written so that the checks of written C cut it into itself again.
#[tactic(none)]
pub fn written_calls_are_cut_back()
    ensures back { AreCutBack }
    ensures taken { AreTaken }
{}
