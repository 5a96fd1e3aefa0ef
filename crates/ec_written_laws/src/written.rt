//! What is written of a source has the written shape.
#![tactic(auto)]

mod laws;

pub use laws::{blocks_have_written_shape, expanded_programs_have_written_shape};
