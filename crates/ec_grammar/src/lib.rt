//! A plain reading of the grammar, token by token, that is proved to answer as the grammar has it.
#![tactic(auto)]

pub mod exact;
mod failure;
mod kind;
mod laws;

pub use failure::Failure;
pub use kind::Kind;
pub use laws::keywords_are_the_languages;
