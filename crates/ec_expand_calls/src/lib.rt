//! The call of the library that is written for an embedded statement, with its arguments.
#![tactic(auto)]

mod arguments;
mod calls;

pub use calls::call_of;
