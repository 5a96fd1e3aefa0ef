//! What holds of the phases, as the contracts of functions that do nothing.

ghost use Rattle.ec_phases_defs.specs.First.{HasOneFirst, HasFirst, AcceptedIsRead, ReadIsAccepted};
ghost use Rattle.ec_phases_defs.specs.Laws.{HavePlaces, StandInOrder, HasOneTree, HasTree, HasOneCheck, HasOneReading, IsRead};

use crate::written::written_is_read;
use ec_grammar::exact::readings_are_single;

/// Each embedded statement has the place of one token, and they stand in the order of the text.
#[tactic(none)]
pub fn statements_have_places()
    ensures places { HavePlaces }
    ensures order { StandInOrder }
{}

/// Each text has one tree or is refused for one reason, as far as its statements are read, as it is checked, and with its
/// hosts.
#[tactic(none)]
pub fn sources_are_read()
    ensures one_tree { HasOneTree }
    ensures tree { HasTree }
    ensures one_check { HasOneCheck }
    ensures one { HasOneReading }
    ensures read { IsRead }
{
    readings_are_single();
}

/// Each text has one first fault or limit, or none, as a source and as written C; and a source has none exactly where it is
/// read as a program.
#[tactic(none)]
pub fn first_refusals_are_single()
    ensures one { HasOneFirst }
    ensures there { HasFirst }
    ensures accepted { AcceptedIsRead }
    ensures read { ReadIsAccepted }
{
    sources_are_read();
    written_is_read();
}
