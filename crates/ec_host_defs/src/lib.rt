//! Hosts by their types, and embedded statements with their hosts as places. The definitions are in `specs/`; here their
//! worked examples.
#![tactic(auto)]

mod fault_examples;
mod host_examples;
pub mod sections;
mod statement_examples;

pub use fault_examples::{
    cursor_faults, indicator_examples, indicator_faults, order_examples, section_examples,
    type_examples,
};
pub use host_examples::{
    array_examples, element_examples, reference_examples, struct_examples, structs_examples,
};
pub use statement_examples::{
    action_examples, argument_examples, check_examples, directive_examples, list_examples,
    member_examples, text_examples,
};
