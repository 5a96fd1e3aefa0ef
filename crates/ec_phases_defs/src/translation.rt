//! What is written of a source. The definitions are in `specs/`; here what holds of them, as the contract of a function
//! that does nothing.
#![tactic(auto)]

mod laws;

pub use laws::translations_are_single;
