ghost use Rattle.std.specs.Prelude.{◌≡◌};

use ec_base::OutOfMemory;
use std::alloc::AllocError;

/// Why tokens have no tree. The token is told by how many tokens are left, itself among them.
#[derive(Clone, Copy, Debug, PartialEq, Eq)]
pub enum Failure {
    /// There is no memory for the tree.
    OutOfMemory,
    /// With this token no list of the shape goes on; none is left where the tokens end too soon.
    Dead(usize),
    /// At this token a limit is passed.
    OverLimit(usize),
}

impl From<OutOfMemory> for Failure {
    ghost use Rattle.ec_embedded.specs.declared.shapes.failure.Failure.TheVariants as failure;

    ghost from_gives = { λ _ e. e ≡ failure.OutOfMemory };

    fn from(_refused: OutOfMemory) -> Failure {
        Failure::OutOfMemory
    }
}

impl From<AllocError> for Failure {
    ghost use Rattle.ec_embedded.specs.declared.shapes.failure.Failure.TheVariants as failure;

    ghost from_gives = { λ _ e. e ≡ failure.OutOfMemory };

    fn from(_refused: AllocError) -> Failure {
        Failure::OutOfMemory
    }
}
