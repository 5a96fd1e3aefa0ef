//! Whole runs: the machine is driven from where it stands to the end of the run, what the program prints is put into two
//! sinks, and a library makes its calls.
#![tactic(auto)]

mod driving;
mod halt;
mod library;
mod printing;

pub use driving::{resume_with, run_main, run_on};
pub use halt::Halt;
pub use library::{Library, Progress};
