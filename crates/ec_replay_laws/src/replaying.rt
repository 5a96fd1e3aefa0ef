//! What a run over the links of a recorded one says, as the contracts of functions that do nothing.

ghost use Rattle.ec_replay_laws.specs.Parts.{SaysItself};
ghost use Rattle.ec_replay_laws.specs.Runs.{Meaning, SaysTheSame, SaysAFront, AnswersAlike};
ghost use Rattle.ec_replay_laws.specs.Taking.{TakesExactly};
ghost use Rattle.ec_replay_laws.specs.Texts.{IsReplayed, PartIsReplayed, WrittenIsReplayed};

use ec_replay::links_replay;
use ec_transcript::transcripts_are_exact;

/// Over links that replay a log every program gets the recorded answers as long as it asks what was recorded, over the same
/// slots: where what it says first differs from the recorded log, it asked for something else or over another slot, or
/// ended. What was recorded is itself what is said over such links.
#[tactic(none)]
pub fn recorded_links_answer_alike()
    ensures alike { AnswersAlike }
    ensures itself { SaysItself }
{
    links_replay();
}

/// A program that takes its answers exactly says the same over links that replay a run of it: two runs over slots that stand
/// alike have the same log, the same output, the same in every object and the same ending, where what the second said over
/// each slot is what is said over a link that replays what the first said over that slot. Where the second broke off, at a
/// write fault or for want of memory, what it said and printed are fronts of that.
#[tactic(none)]
pub fn replays_say_the_same()
    ensures whole { (meaning : Meaning) → TakesExactly meaning → SaysTheSame meaning }
    ensures part { (meaning : Meaning) → TakesExactly meaning → SaysAFront meaning }
{
    links_replay();
}

/// So it does over the links of a text that is the transcript of that run, in either version: those that the text is read
/// as, in order and with their marks. And so it does over those of what is written of a run, where what was said is clean.
#[tactic(none)]
pub fn transcripts_are_replayed()
    ensures read { (meaning : Meaning) → TakesExactly meaning → IsReplayed meaning }
    ensures part { (meaning : Meaning) → TakesExactly meaning → PartIsReplayed meaning }
    ensures written { (meaning : Meaning) → TakesExactly meaning → WrittenIsReplayed meaning }
{
    links_replay();
    transcripts_are_exact();
}
