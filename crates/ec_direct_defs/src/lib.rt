//! What an embedded statement does where it stands in its source: by the types of its hosts, and without the call that is
//! written for it. The definitions are in `specs/`.
#![tactic(auto)]

mod examples;
pub mod simulation;

pub use examples::{handlers, rows_and_cursors, stored_fields, texts};
