//! What every program and every source says over the links of what it recorded, as the contract of a function that does
//! nothing.

ghost use Rattle.std.specs.Prelude.{◌≡◌, ℕ, List, Option};
ghost use Rattle.ec_direct_defs.specs.Direct.{direct_meaning};
ghost use Rattle.ec_execution_defs.specs.Programs.{Executable, meaning};
ghost use Rattle.ec_language.specs.Letters.{Text};
ghost use Rattle.ec_meaning_defs.specs.evaluation.State.{Answer};
ghost use Rattle.ec_phases_defs.specs.Sources.{BoundProgram};
ghost use Rattle.ec_phases_defs.specs.translation.Accepted.{IsAcceptedText};
ghost use Rattle.ec_replay_laws.specs.Runs.{Meaning};
ghost use Rattle.ec_replay_laws.specs.Texts.{IsReplayable};

use crate::replaying::{replays_say_the_same, transcripts_are_replayed};
use crate::taking::answers_are_taken_exactly;
use ec_sim_source_laws::run::written_texts_mean_the_same;

/// A program of written C says the same over the links of its transcript, for each number of turns. So does every accepted
/// source, by what its embedded statements do where they stand; and whatever else means the same.
#[tactic(none)]
pub fn runs_are_replayed()
    ensures programs { (x : Executable) (turns : ℕ) → IsReplayable (meaning x turns) }
    ensures sources { (text : Text) (p : BoundProgram) → IsAcceptedText text p → (turns : ℕ)
        → IsReplayable (direct_meaning p.program turns) }
    ensures alike { (one other : Meaning)
        → ((ready : Option (ℕ × List ℕ)) (answers : List Answer)
        → one ready answers ≡ other ready answers) → IsReplayable one → IsReplayable other }
{
    answers_are_taken_exactly();
    written_texts_mean_the_same();
    replays_say_the_same();
    transcripts_are_replayed();
}
