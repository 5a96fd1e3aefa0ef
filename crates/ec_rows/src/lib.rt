//! How a program of rows reads its input, what it writes, and what it ends with.
#![tactic(auto)]

mod failure;
mod sections;

pub use failure::Failure;
pub use sections::{Sections, show_input, text_of};
