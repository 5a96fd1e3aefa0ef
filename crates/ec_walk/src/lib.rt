//! The walk over expressions, and over the types and declarators in them.
#![tactic(auto)]

mod cycle;
mod dims;
mod members;
mod spines;
mod walk;

pub use walk::{base, call, expr, last_length, lengths, outer_lengths};
