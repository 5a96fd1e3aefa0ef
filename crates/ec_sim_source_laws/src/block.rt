//! The embedded statements of an accepted source are copied to the blocks that are written for them, as the contract of a
//! function that does nothing.
#![tactic(auto)]

mod laws;

pub use laws::embedded_statements_are_copied;
