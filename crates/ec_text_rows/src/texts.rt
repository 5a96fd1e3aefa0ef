//! Shows what the precompiler makes of texts: their pieces, their tokens, or their trees. `docs/rows/SHOWN.md` has
//! the form.

mod arithmetic;
mod pieces;
mod rows;
mod task;
mod trees;

pub use rows::show_rows;
pub use task::{show, task_named};
