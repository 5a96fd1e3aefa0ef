//! Bytes that are put into an object that was just made.

ghost use Rattle.std.specs.Prelude.{◌≡◌, ◌+◌, ◌^◌, ◌≤◌, ℕ, List, length, map};
ghost use Rattle.ec_code.specs.Objects.{AreInside, stored_view};
ghost use Rattle.ec_memory_defs.specs.Cells.{written};
ghost use Rattle.ec_memory_defs.specs.Memory.{Memory};
ghost use Rattle.ec_interp.specs.opening.Filling.{IsLast};
ghost use Rattle.ec_meaning_defs.specs.resolved.Programs.{with_values};

use ec_bytes::Ptr;
use ec_code::Stored;
use ec_memory::Store;

/// Puts bytes into the object that was made last, from an offset on. They lie in it.
pub(crate) fn put_part(store: &mut Store, object: Ptr, at: u64, part: &[u8])
    requires room { object.0 + 2 ^ 32 ≤ 2 ^ 64 }
    requires near { at ≤ 2 ^ 24 }
    ensures { (before : Memory) (bytes : List ℕ) → IsLast store.old object.0 before bytes
        → at + length part.now ≤ length bytes
        → IsLast store.new object.0 before (written bytes at part.now) }
{
    // The object is alive and has room for each of its parts.
    let _ = store.put(Ptr(object.0 + at), part);
}

/// Puts the parts of an initializer into the object that was made last, in order. They lie in it.
pub(crate) fn put_parts(store: &mut Store, object: Ptr, size: u64, parts: &[Stored])
    requires room { object.0 + 2 ^ 32 ≤ 2 ^ 64 }
    requires small { size ≤ 2 ^ 24 }
    requires inside { AreInside size parts.now }
    ensures { (before : Memory) (bytes : List ℕ) → IsLast store.old object.0 before bytes
        → length bytes ≡ size
        → IsLast store.new object.0 before (with_values bytes (map stored_view parts.now)) }
{
    for part in parts {
        put_part(store, object, part.at, part.bytes.as_slice());
    }
}
