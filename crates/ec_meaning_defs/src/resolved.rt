//! What is left of a C program once its names and types have done their work: the definitions, in `specs/`, of resolved
//! trees and of the operations on values whose types are known; here their worked examples.
#![tactic(auto)]

mod opening;
mod operations;

pub use opening::{label_examples, opening_examples};
pub use operations::{
    bit_examples, comparison_examples, integer_examples, pointer_examples, shift_examples,
    value_examples,
};
