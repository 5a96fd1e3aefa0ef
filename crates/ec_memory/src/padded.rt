//! Bytes with zero bytes behind them, which are put as one access.

ghost use Rattle.std.specs.Prelude.{◌≡◌, ◌+◌, ◌≤◌, ◌++◌, length, replicate, OnErr};
ghost use Rattle.ec_memory_defs.specs.Cells.{set_cells, written};
ghost use Rattle.ec_memory_defs.specs.Memory.{put};
ghost use Rattle.ec_memory.specs.Store.{outcome};

use crate::place::reach;
use crate::store::Store;
use ec_base::Trap;
use ec_bytes::{Ptr, Region};

impl Store {
    /// Puts the bytes of `piece`, and then `zeros` zero bytes at a pointer, as one access, and no memory of the machine is
    /// taken. The traps are `Null`, `Dead` and `Outside`.
    pub fn put_padded(&mut self, ptr: Ptr, piece: &[u8], zeros: u64) -> Result<(), Trap>
        ensures outcome { outcome result self.new
            ≡ put self.old ptr.0 (piece.now ++ replicate zeros 0) }
        ensures unchanged { OnErr result (self.new ≡ self.old) }
    {
        let at = reach(&self.alive, ptr, piece.len() as u128 + zeros as u128)?;
        write_parts(&mut self.cells, at, piece, zeros as usize);
        Ok(())
    }
}

/// Writes bytes, and zero bytes behind them. They fit the region.
fn write_parts(cells: &mut Region, at: usize, piece: &[u8], zeros: usize)
    requires { at + (length piece.now + zeros) ≤ length cells.old }
    ensures cells { cells.new
        ≡ written cells.old at (set_cells (piece.now ++ replicate zeros 0)) }
    ensures length { length cells.new ≡ length cells.old }
{
    let _ = cells.len();
    cells.write(at, piece);
    cells.fill(at + piece.len(), zeros, 0);
}
