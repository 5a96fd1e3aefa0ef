//! What is found out about an expression fits where nothing is wrong with it: a part of the law that every program that is
//! accepted is resolved to a sound one.
#![tactic(auto)]

mod laws;

pub use laws::expressions_fit;
