//! Bytes behind a pointer, each read as an access of its own.

ghost use Rattle.std.specs.Prelude.{◌≡◌, ◌<◌, ◌≤◌, ◌^◌, length, slice_get, IfOk};
ghost use Rattle.ec_memory.specs.SingleBytes.{byte_behind, cell_read, cells_left};

use crate::place::{object, offset_in};
use crate::store::Store;
use ec_base::Trap;
use ec_bytes::{Ptr, Region};

impl Store {
    /// The byte `behind` places behind a pointer, in the pointer's object, read as an access of its own. The traps are `Null`,
    /// `Dead`, `Outside` and `Unset`.
    pub fn byte(&self, ptr: Ptr, behind: u64) -> Result<u8, Trap>
        ensures { result ≡ byte_behind self.now ptr.0 behind }
    {
        let place = object(&self.alive, ptr)?;
        let offset = offset_in(ptr);
        let left = place.size.saturating_sub(offset) as u64;
        if behind >= left {
            return Err(Trap::Outside);
        }
        byte_at(
            &self.cells,
            place.start as usize + offset as usize + behind as usize,
        )
    }

    /// How many bytes of the pointer's object stand from the pointer on. The traps are `Null` and `Dead`.
    pub fn left(&self, ptr: Ptr) -> Result<u64, Trap>
        ensures value { result ≡ cells_left self.now ptr.0 }
        ensures bound { IfOk result (λ count. count ≤ 2 ^ 28) }
    {
        let place = object(&self.alive, ptr)?;
        let offset = offset_in(ptr);
        Ok(place.size.saturating_sub(offset) as u64)
    }
}

/// The byte at a place of the region.
fn byte_at(cells: &Region, at: usize) -> Result<u8, Trap>
    requires { at < length cells.now }
    ensures { result ≡ cell_read (slice_get cells.now at) }
{
    match cells.bytes(at, 1) {
        Some(bytes) => Ok(bytes[0]),
        None => Err(Trap::Unset),
    }
}
