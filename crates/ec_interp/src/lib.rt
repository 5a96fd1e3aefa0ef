//! Whole runs of resolved programs: a machine for a program, which opens it, runs it to its end, and keeps the memory that
//! is there then.
#![tactic(auto)]

mod end;
mod machine;
pub mod opening;
pub mod running;

pub use end::{RunEnd, Step};
pub use machine::Machine;
