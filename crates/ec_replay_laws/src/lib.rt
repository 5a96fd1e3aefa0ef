//! What holds of runs that are replayed: over the links of its own transcript a program says the same, prints the same and
//! ends the same. No code.
#![tactic(auto)]

mod replaying;
mod sources;
mod taking;

pub use replaying::{recorded_links_answer_alike, replays_say_the_same, transcripts_are_replayed};
pub use sources::runs_are_replayed;
pub use taking::answers_are_taken_exactly;
