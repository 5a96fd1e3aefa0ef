//! The members of the communication area, by their offsets.

ghost use Rattle.std.specs.Prelude.{◌≡◌, ◌+◌, ◌≤◌, ◌^◌, ◌<◌, length, pos, replicate};
ghost use Rattle.ec_ctypes.specs.declared.types.arith.Arith.TheVariants.{Int, Long};
ghost use Rattle.ec_memory_defs.specs.Memory.{pointer_to};
ghost use Rattle.ec_transfer_defs.specs.Area.{IsArea, at, with_member};
ghost use Rattle.ec_transfer_defs.specs.Conversion.{integer_bytes};

use ec_bytes::Ptr;
use ec_memory::{Store, Value};
use ec_memory_defs::Kind;

/// The pointer to an offset of the area, which is the first object.
fn place(offset: u64) -> Ptr
    requires { offset ≤ 256 }
    ensures { result.0 ≡ pointer_to 1 offset }
{
    Ptr((1 << 32) + offset)
}

/// Writes the bytes of a member.
pub(crate) fn put(store: &mut Store, offset: u64, bytes: &[u8])
    requires area { IsArea store.old }
    requires inside { offset + length bytes.now ≤ 256 }
    ensures member { store.new ≡ with_member store.old (at offset bytes.now) }
    ensures kept { IsArea store.new }
{
    // The area is alive and has room for each of its members.
    let _ = store.put(place(offset), bytes);
}

/// Writes zero bytes.
pub(crate) fn put_zeros(store: &mut Store, offset: u64, count: u64)
    requires area { IsArea store.old }
    requires inside { offset + count ≤ 256 }
    ensures member { store.new ≡ with_member store.old (at offset (replicate count 0)) }
    ensures kept { IsArea store.new }
{
    let _ = store.put_padded(place(offset), &[], count);
}

/// Writes a member of type `long`.
pub(crate) fn put_long(store: &mut Store, offset: u64, value: i64)
    requires area { IsArea store.old }
    requires inside { offset + 8 ≤ 256 }
    ensures member { store.new ≡ with_member store.old (at offset (integer_bytes Long value)) }
    ensures kept { IsArea store.new }
{
    let _ = store.store_kind(place(offset), Kind::Long, Value::Int(value as i128));
}

/// Writes a count into a member of type `long`.
pub(crate) fn put_count(store: &mut Store, offset: u64, count: u64)
    requires area { IsArea store.old }
    requires inside { offset + 8 ≤ 256 }
    ensures member { store.new
        ≡ with_member store.old (at offset (integer_bytes Long (pos count))) }
    ensures kept { IsArea store.new }
{
    let _ = store.store_kind(place(offset), Kind::ULong, Value::Int(count as i128));
}

/// Writes a length into a member of type `int`.
pub(crate) fn put_int(store: &mut Store, offset: u64, length: u32)
    requires area { IsArea store.old }
    requires inside { offset + 4 ≤ 256 }
    requires small { length < 2 ^ 31 }
    ensures member { store.new
        ≡ with_member store.old (at offset (integer_bytes Int (pos length))) }
    ensures kept { IsArea store.new }
{
    let _ = store.store_kind(place(offset), Kind::Int, Value::Int(length as i128));
}
