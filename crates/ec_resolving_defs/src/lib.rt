//! From the tree of a checked program to its resolved form: the definitions, in `specs/`; here their worked examples and law.
#![tactic(auto)]

mod expression_examples;
mod laws;
mod run_examples;
mod statement_examples;

pub use expression_examples::{
    assignment_forms, call_forms, cast_forms, name_forms, operator_forms, place_forms,
};
pub use laws::operands_are_those_of_the_checks;
pub use run_examples::{
    jump_runs, known_runs, object_runs, order_runs, trap_runs, turn_runs, type_runs,
};
pub use statement_examples::{
    declaration_forms, global_forms, initializer_forms, program_forms, statement_forms,
};
