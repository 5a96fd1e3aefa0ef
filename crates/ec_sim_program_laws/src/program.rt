//! What declarations, statements, functions and programs are resolved to where they stand in a source and where they are
//! written, as the contracts of functions that do nothing.
#![tactic(auto)]

mod declarations;
mod functions;
mod parts;
mod programs;
mod statements;

pub use declarations::written_declarations_are_alike;
pub use functions::written_functions_are_copied;
pub use parts::written_parts_are_alike;
pub use programs::written_programs_are_copies;
pub use statements::written_statements_are_copied;
