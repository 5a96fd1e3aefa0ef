//! Pointers where a call is made.

use ec_bytes::Ptr;
use ec_cut::Pointer;

/// An address. Whether it leads to a text is found when it is read.
#[derive(Clone, Copy, Debug)]
pub struct Address(pub Ptr);

impl Pointer for Address {
    ghost use Rattle.std.specs.Prelude.{ℕ};
    ghost use Rattle.ec_call_defs.specs.Library.{leads};

    ghost Data = { ℕ };

    ghost view = { λ address. (address.0).0 };

    ghost leads_to_text = { leads };

    fn is_text(&self) -> bool {
        true
    }
}
