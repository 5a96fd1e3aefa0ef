//! Of the call that is written for a statement, where it stands, the pointers are arguments, and the rules are kept, as the
//! contracts of functions that do nothing.
#![tactic(auto)]

mod laws;

pub use laws::{rules_are_kept, statements_have_targets, written_calls_stand};
