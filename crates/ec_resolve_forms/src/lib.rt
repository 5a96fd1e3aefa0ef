//! The resolved form of each kind of expression, beside what is found out about it (ISO/IEC 9899:1999, 6.5).
#![tactic(auto)]

mod alone;
mod arguments;
mod assignments;
mod binary;
mod casts;
mod found;
pub mod members;
mod names;
mod resolver;
mod sizes;
mod unary;
mod values;

pub use alone::done_alone;
pub use arguments::{passed, promoted};
pub use assignments::{assign_rule, bump_rule, compound_rule};
pub use binary::{binary_rule, index_rule};
pub use casts::{cast_rule, size_rule};
pub use found::{Found, with_form};
pub use names::{literal_rule, name_rule};
pub use resolver::Resolver;
pub use sizes::size_of;
pub use unary::{address_rule, unary_rule};
pub use values::{discarded, result_value, value_rule};
