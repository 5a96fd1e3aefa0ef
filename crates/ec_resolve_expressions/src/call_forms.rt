//! The resolved forms of calls: of functions of the program, of known functions with their formats taken apart, and of the
//! library with their arguments (ISO/IEC 9899:1999, 6.5.2.2 and 7.19.6; PostgreSQL manual, chapter ECPG).
#![tactic(auto)]

mod arguments;
mod called_functions;
mod calls;
mod known;
mod library;
mod operands;
mod printing;
mod symbols;

pub use calls::call_rule;
