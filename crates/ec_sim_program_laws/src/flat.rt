//! How deep types lie in one another in a source, as the contracts of functions that do nothing.
#![tactic(auto)]

mod laws;

pub use laws::{structs_are_shallow, trees_are_flat};
