//! The definitions of what passes between the variables of a program and the values of its statements, in `specs/`:
//! what a host gives as a parameter, what a field stores in a host, and the communication area. Here what the library
//! finds wrong by itself, and the worked examples.
#![tactic(auto)]

mod examples;
mod finding;

pub use examples::{
    area_examples, edge_examples, indicator_examples, number_examples, parameter_examples,
    pointer_examples, row_examples, symbol_examples, text_examples,
};
pub use finding::Finding;
