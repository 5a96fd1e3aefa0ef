//! Resolved forms are of the sorts of their types, where the checks give one: a first part of the law that every program
//! that is accepted is resolved to a sound one.
#![tactic(auto)]

mod examples;
mod laws;

pub use examples::{call_examples, other_phases_are_needed, sound_examples, sound_program};
pub use laws::{
    cuts_are_calls, formats_are_taken_apart, known_functions_are_typed, operands_fit,
    operators_are_typed,
};
