//! What is left of a program (ISO/IEC 9899:1999, 6.9).

use crate::storage::library::LibraryCall;
use ec_base::List;
use ec_code::Program;

/// A resolved program, and the calls of the library in it, by their numbers.
#[derive(Debug, Drop)]
pub struct Resolved {
    pub program: Program,
    pub calls: List<LibraryCall>,
}
