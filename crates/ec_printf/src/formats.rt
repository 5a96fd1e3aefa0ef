//! The known functions by name, and the formats of `printf` taken apart.
#![tactic(auto)]

mod known;

pub use known::{Amount, Channel, Field, Known, Part, Style};
