//! What holds of the structs and the types of declarations behind a program, as the contracts of functions that do nothing.
#![tactic(auto)]

mod laws;

pub use laws::{tables_are_sound, types_are_within_limits, varchars_have_their_members};
