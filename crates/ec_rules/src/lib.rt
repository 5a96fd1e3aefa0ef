//! The rules of expressions, one by one, over what is found out about their parts (ISO/IEC 9899:1999, 6.5), and those of
//! declarations, statements and initializers that speak of one operand alone.
#![tactic(auto)]

mod assignments;
mod binary;
mod calls;
mod casts;
mod declared;
mod faults;
mod initial;
mod members;
mod names;
mod operand;
mod statements;
mod unary;
mod values;

pub use assignments::{assign_rule, bump_rule, compound_rule};
pub use binary::{binary_rule, index_rule};
pub use calls::call_rule;
pub use casts::{cast_rule, size_rule};
pub use declared::{
    complete_rule, copy_type, declared_type, elements_rule, length_rule, within_rule,
};
pub use initial::{fixed_rule, is_text_for, is_whole, suits_rule};
pub use members::{arrow_rule, member_rule};
pub use names::name_rule;
pub use operand::Operand;
pub use statements::{condition_rule, return_nothing, return_rule};
pub use unary::{address_rule, unary_rule};
pub use values::value_rule;
