//! Embedded statements: their forms, and the text that is sent to the server.
#![tactic(auto)]

mod examples;
mod laws;
pub mod shapes;

pub use examples::{
    connection_examples, cursor_examples, descriptor_examples, directive_examples,
    dynamic_examples, left_out_examples, limit_examples, parameter_examples, server_examples,
};
pub use laws::forms_are_exact;
