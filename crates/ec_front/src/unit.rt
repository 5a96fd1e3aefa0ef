//! The phases of the front end, one after the other: pieces, tokens, syntax.
#![tactic(auto)]

mod reading;

pub use reading::read_unit;
