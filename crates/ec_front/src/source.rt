//! Sources, read phase by phase: pieces, tokens, syntax, embedded statements, declare sections, checks, hosts.
#![tactic(auto)]

mod checked;
mod statements;
mod tree;
mod whole;

pub use checked::read_checked;
pub use tree::read_tree;
pub use whole::{Source, read_source};
