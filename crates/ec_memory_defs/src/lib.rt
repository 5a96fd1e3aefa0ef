//! The definitions of cells and of memory, in `specs/`; here the scalar types in one byte, and the worked examples.
#![tactic(auto)]

mod kind;
mod memory_laws;

pub use kind::Kind;
pub use memory_laws::{
    access_examples, front_examples, object_examples, pointer_examples, text_examples,
    two_pointer_examples, value_examples,
};
