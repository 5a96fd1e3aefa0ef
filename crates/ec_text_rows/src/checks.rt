//! Prints what the checks say of each program: `fine`, the first fault with its line, or the limit.
//! `docs/rows/SHOWN.md` has the form.

mod checking;
mod rows;

pub use rows::check_rows;
