//! Transcripts replayed: links that answer as it was recorded.
#![tactic(auto)]

mod laws;
mod replaying;
mod same;
mod stop;
mod transcript_link;

pub use laws::links_replay;
pub use replaying::{Replayed, replay};
pub use stop::ReplayStop;
pub use transcript_link::TranscriptLink;
