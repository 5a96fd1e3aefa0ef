//! The functions that a C program may call without defining them: what `printf` puts, and what the functions on texts and
//! bytes read and write.
#![tactic(auto)]

mod arguments;
mod compare;
mod digits;
mod fields;
mod format;
mod library;
mod refusal;

pub use library::call;
pub use refusal::{Answer, Refusal};
