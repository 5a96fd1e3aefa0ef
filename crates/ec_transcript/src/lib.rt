//! Transcripts: what was said over the links of a rack, as a text.
#![tactic(auto)]

mod count;
mod fields;
mod laws;
mod lines;
mod numbers;
mod reading;
mod requests;
mod states;
mod stop;
mod version;
mod whole;
mod writing;

pub use laws::{transcript_example, transcripts_are_exact};
pub use stop::ReadStop;
pub use version::Version;
pub use whole::{Transcript, read_transcript};
pub use writing::write_transcript;
