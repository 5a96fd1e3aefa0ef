//! All of a source in which nothing is wrong has types, as the contract of a function that does nothing.
#![tactic(auto)]

mod laws;

pub use laws::sources_have_types;
