//! Structs are closed in their order wherever the checks look at a program, as the contracts of functions that do nothing.
#![tactic(auto)]

mod laws;

pub use laws::{closed_with_types_are_listed, structs_are_closed_in_order};
