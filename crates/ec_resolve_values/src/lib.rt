//! The lowest parts of resolving: conversions of values, where objects are stored, and the parts of initial values.
#![tactic(auto)]

pub mod conversions;
pub mod initial_parts;
pub mod storage;
