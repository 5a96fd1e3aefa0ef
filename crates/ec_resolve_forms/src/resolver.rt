//! What is known while a program is resolved.

use ec_resolve_values::storage::Storage;
use ec_scopes::Checker;

/// What the checks know where a part of the program stands, and where the objects are.
#[derive(Drop)]
pub struct Resolver {
    pub checker: Checker,
    pub storage: Storage,
}
