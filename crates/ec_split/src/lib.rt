//! Takes a source apart into its pieces: C text and what is embedded in it.
#![tactic(auto)]

mod embedded;
mod parts;
mod scan;
pub mod scanning;

pub use scan::split;
