//! The checks on a program: what is found out about declarations, statements and functions (ISO/IEC 9899:1999, 6.7 to 6.9),
//! the first violation of a program, and what later phases need where there is none.
#![tactic(auto)]

mod bodies;
mod checking;
mod declarations;
mod defined;
mod functions;
mod labels;
mod objects;
mod programs;
mod statements;
mod structs;
pub mod typed;

pub use checking::check;
