//! What the calls of the library do, in `specs/`: over a state with its memory, its open connections and its descriptors,
//! the conversation and the answers that are left. Here the worked examples.
#![tactic(auto)]

mod connections;
mod descriptors;
pub mod library_step;
mod running;

pub use connections::{
    connecting_examples, control_examples, disconnecting_examples, mark_examples,
    preparing_examples,
};
pub use descriptors::{area_examples, count_examples, getting_examples, setting_examples};
pub use running::{
    input_examples, list_examples, order_examples, plain_examples, reply_examples,
    storing_examples, transaction_examples,
};
