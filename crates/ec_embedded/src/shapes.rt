//! Shapes of lists of tokens: what a list is by a shape, the token with which it stops to be one, and a plain reading
//! that finds both by the next token.
#![tactic(auto)]

mod failure;
mod laws;

pub use failure::Failure;
pub use laws::readings_are_exact;
