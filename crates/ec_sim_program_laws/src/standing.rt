//! Trees of accepted sources stand as the law on programs wants it.
#![tactic(auto)]

mod laws;

pub use laws::{sections_keep_lengths, shapes_stand, sources_stand, statements_stand_in_trees};
