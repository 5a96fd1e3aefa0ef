//! Scopes, types and constants of C, and the faults and the limit that the checks of a program tell.
#![tactic(auto)]

mod laws;

pub use laws::answers_are_first;
