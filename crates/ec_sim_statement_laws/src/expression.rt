//! What expressions, types, lengths and initializers are resolved to where they stand in a source and where they are
//! written, as the contracts of functions that do nothing.
#![tactic(auto)]

mod initializers;
mod laws;
mod varchars;

pub use initializers::{
    stored_parts_call_no_library, written_initializers_are_alike,
    written_optional_initializers_are_alike,
};
pub use laws::written_expressions_are_alike;
pub use varchars::written_varchars_are_alike;
