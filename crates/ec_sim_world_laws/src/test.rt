//! The tests that are written behind the call of an embedded statement are those of its handlers, as the contracts of functions that do nothing.
#![tactic(auto)]

mod laws;

pub use laws::{tests_are_resolved, the_area_is_known};
