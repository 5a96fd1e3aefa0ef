//! Statements that are left out, told by their words.
#![tactic(auto)]

mod areas;
mod words;

pub use words::{is_first, is_left_out};
