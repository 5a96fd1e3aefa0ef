//! What holds along the walk through a whole program: its parts, what stands, directives, how statements are read, types,
//! and flat trees.
#![tactic(auto)]

pub mod directive;
pub mod flat;
pub mod program;
pub mod shape;
pub mod standing;
pub mod types;
