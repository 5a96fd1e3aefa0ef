//! The cursors of a program (PostgreSQL manual, "Using Cursors"): which DECLARE belongs to an OPEN.
#![tactic(auto)]

mod names;
mod table;

pub use table::{CursorTable, cursors};
