//! The calls of the library in a program, made for the machine that runs it: their arguments
//! are evaluated, cut, and carried out over a rack of links.
#![tactic(auto)]

mod address;
mod area;
mod call;
mod giving;
mod making;
mod resuming;
mod serving;
mod session;
mod starting;

pub use call::{Argument, Call};
pub use session::Session;
