//! What is bound for the statements of a source has sizes and counts that can be written, as the contracts of functions that do
//! nothing.
#![tactic(auto)]

mod laws;

pub use laws::{sources_are_counted, statements_are_counted};
