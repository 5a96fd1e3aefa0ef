//! The front end: C that is read, sources that are read and checked, written C that is read and checked, and sources that
//! are translated.
#![tactic(auto)]

pub mod source;
pub mod translation;
pub mod unit;
pub mod written;
