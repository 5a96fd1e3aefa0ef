//! Sources, translated to C.
#![tactic(auto)]

mod binding;
mod translating;

pub use binding::bound_statements;
pub use translating::translate;
