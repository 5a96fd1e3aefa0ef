//! Sound programs are never stuck, whatever they are answered: the law, as the contracts of functions that do nothing.
#![tactic(auto)]

mod laws;

pub use laws::{
    sound_programs_are_never_stuck, sound_written_programs_are_never_stuck,
    what_is_computed_is_sound,
};
