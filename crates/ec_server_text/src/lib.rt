//! Statements that pass to the server: hosts and the INTO list cut out of any tokens.
#![tactic(auto)]

mod cuts;
mod hosts;
mod laws;
mod lookahead;

pub use cuts::{Cutting, declare, declare_prepared, server, transaction};
pub use hosts::{input_host, long_host, outputs};
pub use laws::readers_are_exact;
pub use lookahead::{begins_area, begins_host, begins_into};
