//! The parts of resolving that need no walk over expressions: the makers of statements, the labels and the objects in them
//! (ISO/IEC 9899:1999, 6.7 and 6.8); the types of parameters, what the names of functions stand for, and what a program
//! declares and defines (6.9).
#![tactic(auto)]

mod entries;
mod globals;
mod labels;
mod making;
mod objects;
mod types;

pub use entries::{begin_function, declare_param, defines, is_done_with, know_function, number_as};
pub use globals::{defined_names, defined_table, globals_in};
pub use labels::labels_of;
pub use making::{
    behind_first_part, block, choice, continued, declare_initialized, declare_unset, embedded,
    evaluated, jump, labelled, left, nothing, on_line, repeated, returned, returned_nothing,
    together, unboxed,
};
pub use objects::objects_in_all;
pub use types::{param_type, parameter_kinds, result_rule, size_of_type};
