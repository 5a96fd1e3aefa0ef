//! The numbers of objects and of functions, as the contract of a function that does nothing.
#![tactic(auto)]

mod laws;

pub use laws::cursors_are_of_objects;
