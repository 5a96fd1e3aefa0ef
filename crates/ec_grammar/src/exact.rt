//! The plain reading of the grammar answers as the grammar has it.
#![tactic(auto)]

mod laws;

pub use laws::{derived_trees_are_read, readings_are_exact, readings_are_single, trees_are_read};
