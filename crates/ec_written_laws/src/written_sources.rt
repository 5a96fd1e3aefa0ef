//! What is written of an accepted source has the written shape.
#![tactic(auto)]

mod laws;

pub use laws::sources_are_written_in_shape;
