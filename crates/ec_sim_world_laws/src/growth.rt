//! What is known grows as the checks look at a program, as the contracts of functions that do nothing.
#![tactic(auto)]

mod laws;

pub use laws::what_is_known_grows;
