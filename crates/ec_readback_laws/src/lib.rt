//! Written C is read back as the tree that it was written of.
#![tactic(auto)]

mod laws;

pub use laws::written_programs_are_read_back;
