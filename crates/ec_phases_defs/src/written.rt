//! How written C is read, one phase after the other. The definitions are in `specs/`; here what holds of them, as the
//! contracts of functions that do nothing.
#![tactic(auto)]

mod laws;

pub use laws::{written_calls_are_cut_back, written_is_read};
