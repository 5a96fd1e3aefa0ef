//! To what a call of the library is resolved that is written for a statement, as the contracts of functions that do nothing.
#![tactic(auto)]

mod calls;
mod pointers;

pub use calls::{arguments_keep_their_places, written_calls_are_resolved};
pub use pointers::pointers_are_seen;
