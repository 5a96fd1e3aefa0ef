//! What the checks found out about a program, as later phases have it: its structs numbered by the places where their
//! members close, and the types of its declarations by their numbers.
#![tactic(auto)]

mod order;
mod renumbering;

pub use renumbering::{Numbered, make_numbered};
