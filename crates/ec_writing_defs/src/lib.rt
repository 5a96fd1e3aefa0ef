//! How the written C looks: the text of each tree, and which trees can be written so that they are read back.
#![tactic(auto)]

mod examples;

pub use examples::{
    declaration_examples, expression_examples, parentheses_examples, program_example,
    quote_examples, shape_examples, statement_examples,
};
