//! What the arguments of a written call are resolved to, as the contracts of functions that do nothing.
#![tactic(auto)]

mod arguments;
mod bound;
mod places;

pub use arguments::written_arguments_are_resolved;
pub use bound::calls_are_those_of_their_places;
pub use places::pointers_lead_to_leaves;
