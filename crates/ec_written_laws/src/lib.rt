//! The shapes that the trees of sources have, and that the phases behind the syntax, the binding of hosts and the
//! expansion keep.
#![tactic(auto)]

pub mod bound;
pub mod kept;
pub mod source;
pub mod written;
pub mod written_sources;
