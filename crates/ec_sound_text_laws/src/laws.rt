//! What holds of the trees of written C, as the contracts of functions that do nothing.

ghost use Rattle.ec_sound_text_laws.specs.Laws.{TreesAreRead, TokensAreRead, DeclarationsArePlain, StatementsArePlain, TopsThatAreReadArePlain, ProgramsFit};
ghost use Rattle.ec_sound_text_laws.specs.Runs.{WrittenTextsAreNeverStuck, SourcesAreNeverStuck};
ghost use Rattle.ec_sound_text_laws.specs.Texts.{TextsAreRead};

use ec_sim_source_laws::meaning::sources_mean_what_is_written;
use ec_sim_source_laws::run::written_texts_mean_the_same;
use ec_sim_source_laws::section::written_programs_have_no_sections;
use ec_sound_program_laws::programs_are_sound;
use ec_sound_run_laws::sound_written_programs_are_never_stuck;
use ec_written_laws::written_sources::sources_are_written_in_shape;

/// The tree that the grammar derives of tokens of written C has nothing embedded in it: its constants are of arithmetic types, its
/// assignments are by operators that assign, and each struct in it that is listed has members.
pub fn trees_are_read()
    ensures trees { TreesAreRead }
    ensures tokens { TokensAreRead }
{}

/// What is read so is plain, as the laws on expressions and statements want it; and where the phase of declare sections finds no
/// fault, its declarations can all have types.
pub fn what_is_read_has_types()
    ensures declarations { DeclarationsArePlain }
    ensures statements { StatementsArePlain }
    ensures items { TopsThatAreReadArePlain }
    ensures programs { ProgramsFit }
{}

/// A text that is read as written C, and that no phase refuses, has a tree in which nothing is embedded; all its declarations can
/// have types, the checks find nothing wrong in it, and no struct in it begins with more than 2^30 types, one in another.
pub fn texts_are_read()
    ensures { TextsAreRead }
{}

/// No program that is accepted is ever stuck: for each number of turns, with a connection that is ready or none, and over
/// whatever answers, it exits, is trapped, spends its turns or waits for an answer. So it is with each text of written C that no
/// phase refuses, and with each source, by what its embedded statements do where they stand.
#[tactic(none)]
pub fn accepted_programs_are_never_stuck()
    ensures programs { WrittenTextsAreNeverStuck }
    ensures sources { SourcesAreNeverStuck }
{
    programs_are_sound();
    sound_written_programs_are_never_stuck();
    sources_mean_what_is_written();
    written_texts_mean_the_same();
    written_programs_have_no_sections();
    sources_are_written_in_shape();
}
