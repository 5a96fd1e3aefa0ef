//! What is written of a source means what the source means, as the contract of a function that does nothing.
#![tactic(auto)]

mod sources;

pub use sources::sources_mean_what_is_written;
