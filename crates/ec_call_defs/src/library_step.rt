//! The step of programs that call the library keeps the laws on whole runs, as the contract of a function that does nothing.
#![tactic(auto)]

mod laws;

pub use laws::library_steps_keep_the_laws;
