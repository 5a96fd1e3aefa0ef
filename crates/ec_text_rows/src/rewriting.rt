//! Prints the written C of each source, with whether it is read back as the same. `docs/rows/WRITTEN.md` has the form.

mod rows;
mod source;

pub use rows::rewrite_rows;
