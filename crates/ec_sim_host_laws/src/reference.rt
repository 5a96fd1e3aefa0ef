//! What is found of the references of a statement, as the contracts of functions that do nothing.
#![tactic(auto)]

mod laws;

pub use laws::{known_names_are_declared, references_are_found, references_are_there};
