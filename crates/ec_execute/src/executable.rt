//! Programs with their calls of the library.

use ec_base::List;
use ec_calling::Call;
use ec_code::Program;

/// What is run of written C: a program, and its calls of the library by their numbers.
#[derive(Debug, Drop)]
pub struct Executable {
    pub program: Program,
    pub calls: List<Call>,
}
