//! What is known of a program grows, and tests, places, closed structs, calls and known names mean the same in what is
//! known later.
#![tactic(auto)]

pub mod call;
pub mod closing;
pub mod growth;
pub mod known;
pub mod place;
pub mod test;
