//! What a C program means: the definitions, in `specs/`; here their worked examples and laws.
#![tactic(auto)]

mod expressions;
mod laws;
mod runs;
mod statements;
mod switches;

pub use expressions::{
    bump_examples, conversion_examples, logical_examples, order_examples, place_examples,
    struct_examples, update_examples,
};
pub use laws::{
    asking_programs, further_answers, more_turns_change_nothing, plain_programs,
    runs_end_within_their_turns, runs_only_add, steps_that_agree,
};
pub use runs::{
    call_examples, ending_examples, no_value_examples, opening_examples, spent_examples,
    step_examples,
};
pub use statements::{
    block_examples, declaration_examples, goto_examples, line_examples, loop_examples,
    turn_examples,
};
pub use switches::{
    breaking_examples, choice_examples, nested_examples, passed_examples, switch_examples,
};
