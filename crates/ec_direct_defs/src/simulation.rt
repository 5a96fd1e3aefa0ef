//! A source and the C that is written of it mean the same. The definitions are in `specs/`.
#![tactic(auto)]

mod examples;

pub use examples::{handlers, other_forms, rows_and_cursors, shown_forms, stored_fields, texts};
