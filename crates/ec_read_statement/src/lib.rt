//! Embedded statements, read from their pieces.
#![tactic(auto)]

mod answers;
mod kinds;
mod laws;
pub mod left_out;

pub use answers::read_statement;
pub use laws::forms_are_decided;
