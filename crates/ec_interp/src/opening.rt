//! The objects that are there when a program begins: its communication area, its globals and its string literals.
#![tactic(auto)]

mod filling;
mod opening;

pub use opening::open_program;
