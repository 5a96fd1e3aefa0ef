//! The communication area.

ghost use Rattle.std.specs.Prelude.{◌≡◌, true};
ghost use Rattle.ec_transfer_defs.specs.Area.{IsArea};

use ec_bytes::Ptr;
use ec_memory::Store;

/// Whether the first object of a memory is alive, and as long as a communication area.
pub(crate) fn has_area(store: &Store) -> bool
    ensures { result ≡ true → IsArea store.now }
{
    match store.left(Ptr(1 << 32)) {
        Ok(count) => count == 256,
        Err(_) => false,
    }
}
