//! What an operator does with two values.

ghost use Rattle.std.specs.Prelude.{◌≡◌};
ghost use Rattle.ec_meaning_defs.specs.resolved.Resolved.{Exp};
ghost use Rattle.ec_code.specs.Trees.{two_made};
ghost use Rattle.ec_resolve_values.specs.conversions.Forms.{joined};

use crate::conversions::conversion::Conversion;
use ec_code::Binary;

/// An operator over two values: each is converted, and then comes the step.
#[derive(Clone, Copy, Debug)]
pub struct Joined {
    pub left: Conversion,
    pub right: Conversion,
    pub step: Binary,
}

impl Joined {
    /// The step over both values as they are.
    pub(crate) fn plain(step: Binary) -> Joined
        ensures { (x y : Exp) → joined result x y ≡ two_made step x y }
    {
        Joined {
            left: Conversion::Kept,
            right: Conversion::Kept,
            step,
        }
    }
}
