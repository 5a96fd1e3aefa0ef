//! Written C, read and run; and sources, run through the C that is written of them.
#![tactic(auto)]

mod calls;
mod executable;
mod reading;
mod running;
pub mod source;

pub use executable::Executable;
pub use reading::read_program;
pub use running::{RunEnd, run};
