//! The memory of a C program: objects that are made and end, pointers into them, and accesses that are tested.
#![tactic(auto)]

mod elements;
mod ints;
mod lent;
mod moves;
mod padded;
mod place;
mod pointers;
mod reads;
mod scalars;
mod store;
mod texts;
mod value;

pub use elements::Elements;
pub use lent::LentBytes;
pub use pointers::{difference, order};
pub use store::{MakeStop, Store};
pub use value::Value;
