//! The words of the command line: the command that they name, with its options and links.
#![tactic(auto)]

mod examples;
mod line;
mod links;
mod named;
mod words;

pub use examples::word_examples;
pub use links::LinkSpec;
pub use named::links_named;
pub use words::{Command, GenWords, RunWords, USUAL_TURNS, read_words};
