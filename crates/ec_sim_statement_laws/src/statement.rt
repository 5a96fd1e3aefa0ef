//! What an embedded statement does is what its call of the library does, as the contracts of functions that do nothing.
#![tactic(auto)]

mod laws;
mod programs;

pub use laws::{
    blocks_do_what_statements_do, calls_do_what_statements_do, statements_make_no_object,
    tests_do_what_handlers_do, written_calls_do_what_statements_do,
};
pub use programs::{copies_do_what_sources_do, written_programs_do_what_sources_do};
