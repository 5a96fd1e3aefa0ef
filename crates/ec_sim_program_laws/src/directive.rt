//! What becomes of the directives of a source, as the contract of a function that does nothing.
#![tactic(auto)]

mod laws;

pub use laws::directives_are_gone;
