//! The block that is written for an embedded statement, by its call: behind the call one test for each condition with an
//! action.
#![tactic(auto)]

mod blocks;
pub mod cursors;
mod handlers;

pub use blocks::block_with;
pub use handlers::on_line;
