//! The tool as one call over a source, two sinks and a rack of links.
#![tactic(auto)]

mod ending;
mod execution;
mod form;
mod limits;
mod message;
mod putting;
mod recording;
mod report;
mod task;
mod text;
mod tool;
mod translation;
mod unseen;

pub use ending::{Ending, status};
pub use form::Form;
pub use task::Task;
pub use tool::ec_main;
