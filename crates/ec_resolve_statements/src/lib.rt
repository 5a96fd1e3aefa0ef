//! The resolved forms of declarations and statements (ISO/IEC 9899:1999, 6.7 and 6.8), of programs without embedded statements,
//! as written C is.
#![tactic(auto)]

mod bodies;
mod declarations;
mod fill;
mod initial_values;
mod objects;
mod simple;
mod surroundings;
mod values;
mod walk;

pub use bodies::{Body, function_body, statements};
pub use declarations::declaration;
pub use surroundings::Around;
