//! What running written C does. The definitions are in `specs/`; here what holds of them, as the contract of a function
//! that does nothing.
#![tactic(auto)]

mod laws;

pub use laws::written_programs_are_single;
