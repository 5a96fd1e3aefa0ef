//! The communication area of a program, `sqlca`: the calls by which the library writes it. They take no memory and
//! always succeed.
#![tactic(auto)]

mod area;
mod members;
mod message;

pub use area::{notice, raise, reset, rows, warn};
