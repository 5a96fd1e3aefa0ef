//! Worked examples of the definitions of `ec_typing_defs`: the violations of whole programs, what has which type, and what
//! the parts of an embedded statement say of others.
#![tactic(auto)]

mod call_examples;
mod name_examples;
mod object_examples;
mod order_examples;
mod part_examples;
mod type_examples;

pub use call_examples::{argument_examples, format_examples, jump_examples, library_examples};
pub use name_examples::{redeclared_examples, reserved_examples, undeclared_examples};
pub use object_examples::{constant_examples, initializer_examples, limit_examples};
pub use order_examples::{first_examples, place_examples, silent_examples, typed_examples};
pub use part_examples::{cursor_examples, handler_examples, reference_examples};
pub use type_examples::{assignment_examples, declaration_examples, operator_examples};
