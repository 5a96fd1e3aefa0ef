//! What the rows of `ec_run_rows` are made of, below the tool: their lines, the slots that they name, what is shown of a rack,
//! and the rows of calls of the library and of words of the command line.
#![tactic(auto)]

pub mod calls;
mod line;
mod place;
mod setup;
mod show;
pub mod words;

pub use place::Place;
pub use setup::{Act, Given, Setup, Stop};
pub use show::{put_log, put_number, put_quoted, put_slots};
