//! Members of structs, with their offsets (ISO/IEC 9899:1999, 6.5.2.3 and 6.7.2.1).
#![tactic(auto)]

mod members;
mod offsets;

pub use members::{arrow_rule, member_rule};
