//! The arguments of a call of the library, cut: which lists of arguments are calls, and what they are cut into.
#![tactic(auto)]

mod arguments;
mod calls;
mod cutting;
mod items;
mod lists;
mod members;
mod numbers;
mod pointers;
mod reading;
mod rules;
mod statements;
pub mod written;

pub use arguments::{Argument, Call, Cut, Indicator, Member, Place, Statement, Text};
pub use cutting::cut;
pub use pointers::{Literal, Pointer};
