//! The rules of C that speak of types and of constants alone: which words are a type, which types are one, what operators
//! take and give, and the values of integer constant expressions.
#![tactic(auto)]

mod constants;
mod types;

pub use constants::{
    Constant, binary_constant, binary_value, cast_constant, unary_constant, unary_value,
};
pub use types::{
    Value, binary_type, decayed, element_type, is_array, is_assignable, is_char_array,
    is_character, is_compound, is_counter, is_scalar, is_structure, is_void, may_be_cast,
    pointed_to, same_arith, same_type, sign_type, struct_number, words_type,
};
