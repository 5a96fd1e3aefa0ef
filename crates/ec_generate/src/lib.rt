//! Generated programs: sources in embedded SQL that ask their server a number of questions, of which the tool makes, runs
//! and reports one.
#![tactic(auto)]

mod examples;
mod source;

pub use examples::program_examples;
pub use source::program;
