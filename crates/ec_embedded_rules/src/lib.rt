//! The checks on embedded statements: their references, the actions that hold at them, and what their variables denote
//! (PostgreSQL manual, "Using Host Variables" and "Setting Callbacks").
#![tactic(auto)]

mod actions;
pub mod parts;
mod references;
mod statements;
mod surroundings;
mod variables;

pub use statements::{directive_rule, embedded_at};
pub use surroundings::{Around, as_body, as_item, looping};
