//! Copies of trees. A copy equals what it is made from, so it has the same view. The one error is want of memory.

mod embedded;
mod exprs;
mod lists;
mod types;
mod units;

pub use embedded::copy_action;
pub use exprs::{copy_base, copy_decl, copy_dims, copy_expr, copy_exprs, copy_init};
pub use types::{copy_ty, same_ty};
pub use units::copy_param;
