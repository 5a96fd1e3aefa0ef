//! Reads expressions, by the readers of what stands one level deeper.
#![tactic(auto)]

mod expressions;

pub use expressions::{Expressions, Operator, Primary, Rank};
