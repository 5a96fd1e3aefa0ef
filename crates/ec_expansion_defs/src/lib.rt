//! What is written for a program with embedded SQL, in the order of its text: in `specs/` the definitions, here their
//! worked examples.
#![tactic(auto)]

mod call_examples;
mod examples;
mod laws;

pub use call_examples::{
    connection_examples, descriptor_examples, prepared_examples, program_examples, server_examples,
};
pub use examples::{block_examples, declaration_examples, handler_examples, member_line_examples};
pub use laws::lines_lead_behind;
