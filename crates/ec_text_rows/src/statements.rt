//! Prints the tree of each embedded statement, or why it is refused. `docs/rows/SHOWN.md` has the form.

mod expressions;
mod forms;
mod parts;
mod rows;

pub use rows::show_rows;
