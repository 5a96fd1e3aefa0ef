//! The argument lists of the library's calls: which lists are calls, what they are cut into, and how a call is written as
//! its arguments. The definitions are in `specs/`; here their worked examples, and the law that cutting undoes writing.
#![tactic(auto)]

mod examples;
mod law;

pub use examples::{
    connection_examples, descriptor_examples, indicator_examples, list_examples, number_examples,
    place_examples, statement_examples,
};
pub use law::calls_are_cut_back;
