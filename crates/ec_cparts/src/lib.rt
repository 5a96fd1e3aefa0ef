//! Reads what statements and whole programs are made of: expressions, types and declarations.
#![tactic(auto)]

mod nested;
mod readers;
mod reading;

pub use nested::expression;
pub use reading::{
    declaration, expression_option, for_head, initializer_option, lengths, more_declarators,
    parameter_part, parenthesized, specifiers, stars,
};
