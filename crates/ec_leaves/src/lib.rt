//! Hosts by their types: what one element is, and the leaves that a host stands for.
#![tactic(auto)]

mod elements;
mod going;
mod parts;
mod placing;
mod walking;

pub use elements::{is_element, is_indicator, is_text, plain_struct, symbol_of};
pub use parts::Leaf;
pub use placing::{leaf_pointer, place_alone, place_with_indicator, size_of, symbol_in};
pub use walking::leaves;
