//! What is found of the hosts of a cursor where a statement opens it, as the contract of a function that does nothing.
#![tactic(auto)]

mod laws;

pub use laws::references_are_found_again;
