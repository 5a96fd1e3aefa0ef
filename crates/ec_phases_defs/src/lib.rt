//! How a source is read, one phase after the other. The definitions are in `specs/`; here what holds of them, as the
//! contracts of functions that do nothing.
#![tactic(auto)]

mod laws;
pub mod translation;
pub mod written;

pub use laws::{first_refusals_are_single, sources_are_read, statements_have_places};
