//! As what the C is run that is written of a source, as the contract of a function that does nothing.
#![tactic(auto)]

mod texts;

pub use texts::{written_texts_are_run, written_texts_mean_the_same};
