//! The resolved forms of functions and programs (ISO/IEC 9899:1999, 6.9 and 6.9.1), without embedded statements, as written
//! C is.
#![tactic(auto)]

mod functions;
mod params;
mod programs;

pub use programs::resolve;
