//! Programs that are accepted are resolved to sound ones.
#![tactic(auto)]

mod laws;

pub use laws::{
    bodies_are_sound, programs_are_sound, starts_are_known, statements_are_sound,
    values_are_of_their_sorts,
};
