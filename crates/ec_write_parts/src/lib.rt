//! Expressions, declarations and parameters, written from the tree that was read: only what has a struct in it, or a
//! VARCHAR, is made as a tree of its own, written and let go.
#![tactic(auto)]

mod declarations;
mod expressions;
mod parameters;
mod structs;

pub use declarations::put_declaration;
pub use expressions::{put_base, put_condition, put_expr_stmt, put_for_head, put_return};
pub use parameters::put_params;
