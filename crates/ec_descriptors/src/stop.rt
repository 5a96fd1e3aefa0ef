//! Why a call on descriptors changes nothing.

use ec_base::OutOfMemory;
use ec_transfer_defs::Finding;

/// Why a call on descriptors changes nothing.
#[derive(Clone, Copy, Debug, PartialEq, Eq)]
pub enum AreaStop {
    /// There is no descriptor of the name (-240), a number is out of its range (-241), or a text is no int (-204).
    Found(Finding),
    /// There was no memory left.
    OutOfMemory,
}

impl From<OutOfMemory> for AreaStop {
    ghost use Rattle.ec_descriptors.specs.declared.stop.AreaStop.TheVariants as stops;
    ghost use Rattle.std.specs.Prelude.{◌≡◌};

    ghost from_gives = { λ _ stop. stop ≡ stops.OutOfMemory };

    fn from(_refused: OutOfMemory) -> AreaStop {
        AreaStop::OutOfMemory
    }
}
