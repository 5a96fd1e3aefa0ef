//! The resolved forms of expressions, and of the types and declarators in them (ISO/IEC 9899:1999, 6.5 and 6.7).
#![tactic(auto)]

pub mod call_forms;
mod cycle;
mod dims;
mod leaves;
mod members;
mod spines;
mod walk;

pub use walk::{base, call, expr, last_length, lengths, outer_lengths};
