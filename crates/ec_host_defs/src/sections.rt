//! Declare sections and VARCHARs: which of their uses are faults, and what is declared in a section. The definitions are
//! in `specs/`; here their worked examples.
#![tactic(auto)]

mod examples;

pub use examples::{
    host_examples, length_examples, mark_examples, order_examples, varchar_examples,
};
