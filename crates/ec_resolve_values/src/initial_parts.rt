//! The parts of an object that an initializer gives a value: the stores of an object of a function, and the bytes of a
//! global that are known before the program runs (ISO/IEC 9899:1999, 6.7.8).
#![tactic(auto)]

mod bytes;
mod known;
mod local;
mod part;

pub use known::known_parts;
pub use local::stores;
pub use part::Part;
