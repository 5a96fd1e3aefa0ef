//! Values in machine words, and what is done with them: operations, conversions, loads and stores.
#![tactic(auto)]

mod access;
mod arithmetic;
mod calculations;
mod operation;
mod word;

pub use access::{load, store, store_char, store_int, store_long};
pub use calculations::{convert, flip, negate, work};
pub use operation::{Comparison, IntegerOperator, Operation};
pub use word::{Stop, Word};
