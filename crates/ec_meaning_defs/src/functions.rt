//! The functions that a C program may call without defining them: what `printf` puts, what the functions on texts and
//! bytes read and write. The definitions are in `specs/`; here their worked examples.
#![tactic(auto)]

mod formats;
mod function_examples;
mod printing_examples;

pub use formats::{format_examples, refused_formats};
pub use function_examples::{
    comparing_examples, copying_examples, ending_examples, putting_examples,
};
pub use printing_examples::{field_examples, integer_examples, order_examples, text_examples};
