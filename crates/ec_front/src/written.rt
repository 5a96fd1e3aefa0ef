//! Written C, read phase by phase: pieces, tokens, syntax, declare sections, checks.
#![tactic(auto)]

mod reading;

pub use reading::read_written;
