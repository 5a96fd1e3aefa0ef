//! Two pointers against one another.

ghost use Rattle.std.specs.Prelude.{◌≡◌, ◌^◌, ◌≤◌};
ghost use Rattle.ec_memory_defs.specs.Memory.{difference, order};

use crate::place::{number_of, offset_in};
use ec_base::Trap;
use ec_bytes::Ptr;
use std::cmp::Ordering;

/// How many elements of `size` bytes, from 1 to 2^24, lie from one pointer to another (ISO/IEC 9899:1999, 6.5.6), cut
/// towards zero. The trap is `Outside` where they lead to different objects. Nothing else is tested.
pub fn difference(to: Ptr, from: Ptr, size: u64) -> Result<i64, Trap>
    requires some { 1 ≤ size }
    requires small { size ≤ 2 ^ 24 }
    ensures { result ≡ difference to.0 from.0 size }
{
    if number_of(to) != number_of(from) {
        return Err(Trap::Outside);
    }
    let bytes = offset_in(to) as i64 - offset_in(from) as i64;
    Ok(bytes / size as i64)
}

/// The order of two pointers, as numbers (ISO/IEC 9899:1999, 6.5.8). Nothing is tested.
pub fn order(one: Ptr, other: Ptr) -> Ordering
    ensures { result ≡ order one.0 other.0 }
{
    one.0.cmp(&other.0)
}
