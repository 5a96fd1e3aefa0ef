//! What is bound for the embedded statements of accepted sources, and the actions that hold at them, can be written.
#![tactic(auto)]

mod laws;

pub use laws::{accepted_hosts_can_be_written, all_statements_stand_in_trees};
