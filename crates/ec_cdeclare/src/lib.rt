//! Reads types and declarations, by the readers of expressions and of what stands one level deeper.
#![tactic(auto)]

mod declarations;
mod declarators;
mod expressions;
mod types;

pub use declarations::Declarations;
pub use declarators::Declarators;
pub use expressions::ExpressionReaders;
pub use types::{Types, stars};
