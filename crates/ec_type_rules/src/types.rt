//! The rules on types.

mod compatible;
mod forms;
mod operators;
mod words;

pub use compatible::{is_assignable, may_be_cast, same_arith, same_type};
pub use forms::{
    decayed, is_array, is_char_array, is_character, is_scalar, is_structure, is_void, pointed_to,
    struct_number,
};
pub use operators::{Value, binary_type, element_type, is_compound, is_counter, sign_type};
pub use words::words_type;
