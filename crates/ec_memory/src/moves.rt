//! Pointers that move within an object.

ghost use Rattle.std.specs.Prelude.{◌≡◌, ◌≤◌, pos, ◌*ℤ◌, MatchOption, SomeIff, FitsSigned, ◌^◌};
ghost use Rattle.std.specs.Int.{w128};
ghost use Rattle.ec_memory_defs.specs.Memory.{pointer_to, object_of, offset_of};
ghost use Rattle.ec_memory.specs.Store.{seen};
ghost use Rattle.ec_memory.specs.Moves.{IsOffset, LiesOutside, moved_within, offset_behind};

use crate::place::offset_in;
use ec_base::Trap;
use ec_bytes::Ptr;

/// The pointer that is `by` elements of `size` bytes further on in an object of `len` bytes.
#[inline(always)]
pub(crate) fn moved_to(len: u32, ptr: Ptr, by: i64, size: u64) -> Result<Ptr, Trap>
    requires { len ≤ 2 ^ 28 }
    ensures { seen (λ to. to.0) result ≡ moved_within len ptr.0 by size }
{
    match offset_up_to(len as usize, offset_behind(ptr, by, size)) {
        Some(offset) => Ok(with_offset(ptr, offset)),
        None => Err(Trap::Outside),
    }
}

/// The same by an index of any 128-bit number.
pub(crate) fn moved_wide_to(len: u32, ptr: Ptr, by: i128, size: u64) -> Result<Ptr, Trap>
    requires { len ≤ 2 ^ 28 }
    ensures { seen (λ to. to.0) result ≡ moved_within len ptr.0 by size }
{
    match wide_offset_up_to(len as usize, ptr, by, size) {
        Some(offset) => Ok(with_offset(ptr, offset)),
        None => Err(Trap::Outside),
    }
}

/// The offset that is `by` elements of `size` bytes behind that of a pointer, or `None` if it is none of at most `len`. An
/// offset that is no 128-bit number lies outside of every object.
fn wide_offset_up_to(len: usize, ptr: Ptr, by: i128, size: u64) -> Option<usize>
    requires { len ≤ 2 ^ 28 }
    ensures { MatchOption result
        (LiesOutside len (offset_behind ptr.0 by size))
        (IsOffset len (offset_behind ptr.0 by size)) }
{
    let distance = wide_distance(by, size)?;
    let offset = distance.checked_add(offset_in(ptr) as i128)?;
    offset_up_to(len, offset)
}

/// How many bytes `by` elements of `size` bytes take, or `None` if that is no 128-bit number.
fn wide_distance(by: i128, size: u64) -> Option<i128>
    ensures { SomeIff result (FitsSigned w128 (by *ℤ pos size)) (by *ℤ pos size) }
{
    by.checked_mul(size as i128)
}

/// An offset of at most `len`, or `None` if it is none.
fn offset_up_to(len: usize, offset: i128) -> Option<usize>
    ensures { MatchOption result (LiesOutside len offset) (IsOffset len offset) }
{
    if 0 <= offset && offset <= len as i128 {
        Some(offset as usize)
    } else {
        None
    }
}

/// The offset that is `by` elements of `size` bytes behind that of a pointer.
fn offset_behind(ptr: Ptr, by: i64, size: u64) -> i128
    ensures { result ≡ offset_behind ptr.0 by size }
{
    offset_in(ptr) as i128 + distance(by, size)
}

/// How many bytes `by` elements of `size` bytes take.
fn distance(by: i64, size: u64) -> i128
    ensures { result ≡ by *ℤ pos size }
{
    by as i128 * size as i128
}

/// The pointer to another offset of the same object.
fn with_offset(ptr: Ptr, offset: usize) -> Ptr
    requires { offset ≤ 2 ^ 28 }
    ensures { result.0 ≡ pointer_to (object_of ptr.0) offset }
{
    Ptr(ptr.0 / (1 << 32) * (1 << 32) + offset as u64)
}
