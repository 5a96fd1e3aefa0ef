//! Texts in the cells of an object.

ghost use Rattle.std.specs.Prelude.{◌≡◌, ◌+◌, ◌≤◌, ◌<◌, length};
ghost use Rattle.ec_memory_defs.specs.Cells.{part_of};
ghost use Rattle.ec_memory_defs.specs.Memory.{front_of, text_of};
ghost use Rattle.ec_memory.specs.Store.{seen};

use ec_base::Trap;
use ec_bytes::Region;

/// The bytes from `at` on before the first zero byte; `left` cells are left in the object.
pub(crate) fn text_in(cells: &Region, at: usize, left: usize) -> Result<&[u8], Trap>
    requires { at + left ≤ length cells.now }
    ensures { seen (λ bytes. bytes.now) result ≡ text_of (part_of cells.now at left) }
{
    // No place among the cells of a region is beyond a usize.
    let _ = cells.len();
    let run = cells.run(at, left);
    if run.len() == left {
        return Err(Trap::Outside);
    }
    match cells.bytes(at + run.len(), 1) {
        Some(_) => Ok(run),
        None => Err(Trap::Unset),
    }
}

/// The same, but at most `limit` bytes.
pub(crate) fn front_in(cells: &Region, at: usize, left: usize, limit: u64) -> Result<&[u8], Trap>
    requires { at + left ≤ length cells.now }
    ensures { seen (λ bytes. bytes.now) result ≡ front_of limit (part_of cells.now at left) }
{
    if limit > left as u64 {
        return text_in(cells, at, left);
    }
    let _ = cells.len();
    let run = cells.run(at, limit as usize);
    if run.len() as u64 == limit {
        return Ok(run);
    }
    match cells.bytes(at + run.len(), 1) {
        Some(_) => Ok(run),
        None => Err(Trap::Unset),
    }
}
