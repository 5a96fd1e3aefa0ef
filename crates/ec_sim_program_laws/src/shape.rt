//! How the embedded statements of a source are read, as the contract of a function that does nothing.
#![tactic(auto)]

mod laws;

pub use laws::statements_are_read;
