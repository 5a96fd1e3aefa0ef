//! Runs of programs over a rack of links, one request after the other. A machine has its own connections and knows which
//! exchanges of the rack's log are its own, so several machines may share a rack.
#![tactic(auto)]

pub mod laws;
mod machine;
mod ready;
mod standing;

pub use machine::Machine;
pub use standing::Standing;
