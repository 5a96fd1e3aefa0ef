//! Embedded statements, read from their tokens.
#![tactic(auto)]

mod connections;
mod descriptors;
mod directives;
mod dynamic;
mod laws;

pub use connections::{at_name, connect, disconnect, set_autocommit, set_connection};
pub use descriptors::{allocate, get, set};
pub use directives::{cursor_head, include, whenever};
pub use dynamic::{deallocate, deallocate_at, execute, open_cursor, prepare};
pub use laws::readers_are_exact;
