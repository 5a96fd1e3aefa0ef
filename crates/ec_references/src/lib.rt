//! References to host variables, names, values and lists of them, read from the tokens of an embedded statement.
#![tactic(auto)]

mod class;
mod cursor;
mod laws;
mod lists;
mod names;
mod references;
mod tests_of_tokens;
mod values;

pub use class::Class;
pub use cursor::{Counts, Cursor};
pub use laws::readers_are_exact;
pub use lists::{inputs, outputs, using_or_none};
pub use names::{
    begins_text, connection, copy_bytes, ended_connection, or_default, quote_or_host, spelled_text,
    text_argument, text_of_host, unquoted,
};
pub use references::{
    copy_name, decimal, hosted, indicator, input_reference, name, named_place, referenced,
    spelled_host, suffix_behind,
};
pub use tests_of_tokens::{
    character_of, is_any_word, is_class, is_glued_mark, is_keyword, is_mark,
};
pub use values::{constant, spelled_value, value};
