//! The numbers that are written for hosts are those of a call, as the contracts of functions that do nothing.
#![tactic(auto)]

mod laws;

pub use laws::hosts_fit_their_calls;
