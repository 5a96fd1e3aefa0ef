//! What embedded statements say of variables, cursors and handlers: the references of a statement, the action that holds at
//! it, and the DECLARE of the cursor that it opens. The tables are made once for a program.
#![tactic(auto)]

mod cursors;
mod gathering;
mod order;
mod program;

pub use gathering::{Reference, references};
pub use order::are_in_order;
pub use program::{Statements, is_directive};
