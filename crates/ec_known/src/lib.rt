//! The functions that are known without a declaration, the names that may not be declared, and the arguments of calls
//! that are no expressions.
#![tactic(auto)]

mod arguments;
mod functions;
mod names;
mod words;

pub use arguments::{Arguments, arguments_of, has_stream, is_identifier, literal_at};
pub use functions::{Known, is_known_function, known_function, optional_types, takes_stream};
pub use names::{is_reserved, is_reserved_tag};
pub use words::is_word;
