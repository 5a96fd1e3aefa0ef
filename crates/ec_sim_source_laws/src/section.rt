//! What the phase of declare sections finds in written C: nothing, as the contract of a function that does nothing.
#![tactic(auto)]

mod laws;

pub use laws::written_programs_have_no_sections;
