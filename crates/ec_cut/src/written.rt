//! What holds of cutting the arguments of the library's calls, as the contracts of functions that do nothing.
#![tactic(auto)]

mod laws;

pub use laws::calls_are_written;
