//! A region's memory grows.

ghost use Rattle.std.specs.Prelude.{◌≡◌, ℕ, ◌+◌, ◌*◌, ◌^◌, ◌<◌, ◌≤◌, ◌/◌, length, take, IfSome, OnOk};
ghost use Rattle.ec_bytes.specs.Bits.{marks_of};
ghost use Rattle.ec_bytes.specs.Region.{Roomy};

use crate::parts::{part, put};
use ec_base::OutOfMemory;
use ec_raw::Block;

/// The least room that is taken.
const LEAST: usize = 64;

/// The most room that there is.
const MOST: usize = 1 << 61;

/// Twice the room, if that is enough, or what is needed.
fn more_room(room: usize, needed: usize) -> Option<usize>
    ensures { IfSome result (λ more. (room ≤ more) × (needed ≤ more) × (more ≤ 2 ^ 61)) }
{
    if room > MOST || needed > MOST {
        return None;
    }
    Some((2 * room).max(needed).max(LEAST).min(MOST))
}

/// Makes room for `len` cells, which are more than there is room for.
#[inline(never)]
fn grow(block: &mut Block, room: &mut usize, len: usize) -> Result<(), OutOfMemory>
    requires { Roomy room.old block.old }
    ensures room { OnOk result (len ≤ room.new) }
    ensures more { room.old ≤ room.new }
    ensures roomy { Roomy room.new block.new }
    ensures bytes { take room.old block.new ≡ take room.old block.old }
    ensures marks { take room.old (marks_of room.new block.new)
        ≡ take room.old (marks_of room.old block.old) }
{
    let old = *room;
    let Some(more) = more_room(old, len) else {
        return Err(OutOfMemory);
    };
    let mut grown = Block::zeroed(block.alloc(), more + more / 8 + 9)?;
    let memory = block.bytes();
    let target = grown.bytes_mut();
    put(target, 0, part(memory, 0, old));
    put(target, more, part(memory, old, (old + 7) / 8));
    *block = grown;
    *room = more;
    Ok(())
}

/// Makes room for `len` cells. Where there is no memory, all stays as it was.
#[inline(always)]
pub(crate) fn make_room(block: &mut Block, room: &mut usize, len: usize) -> Result<(), OutOfMemory>
    requires { Roomy room.old block.old }
    ensures room { OnOk result (len ≤ room.new) }
    ensures more { room.old ≤ room.new }
    ensures roomy { Roomy room.new block.new }
    ensures bytes { take room.old block.new ≡ take room.old block.old }
    ensures marks { take room.old (marks_of room.new block.new)
        ≡ take room.old (marks_of room.old block.old) }
{
    if *room < len {
        return grow(block, room, len);
    }
    Ok(())
}
