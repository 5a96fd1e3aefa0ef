//! What stands round a statement.

use ec_ctypes::Ty;
use ec_resolve_values::storage::Names;

/// What stands round a statement in a program without embedded statements.
#[derive(Clone, Copy)]
pub struct Around<'a> {
    /// The labels of the function.
    pub labels: &'a Names,
    /// The type of the function's result, if it is known.
    pub result: &'a Option<Ty>,
}
