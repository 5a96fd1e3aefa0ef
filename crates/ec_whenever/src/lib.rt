//! The actions that WHENEVER sets, and which of them holds at a statement.
#![tactic(auto)]

mod lookup;
mod table;

pub use lookup::HandlerLookup;
pub use table::handlers;
