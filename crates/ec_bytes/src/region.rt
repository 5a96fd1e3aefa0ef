#![tactic(auto, using(crate::proofs::Held::cells))]

ghost use Rattle.std.specs.Prelude.{◌≡◌, ◌+◌, ◌*◌, ◌≤◌, [], ◌++◌, length, take, OnOk, OnErr, IfOk, IfSome};
ghost use Rattle.std.specs.Option.{option_map};
ghost use Rattle.ec_bytes.specs.Region.{run_of};
ghost use Rattle.ec_bytes.specs.Scalars.{HoldBytes};
ghost use Rattle.ec_memory_defs.specs.Cells.{bytes_of, part_of, filled_cells, set_cells, unset_cells, value_of, written};

use crate::bits::{all_set, mark, move_marks};
use crate::growth::make_room;
use crate::parts::{decode, encode, part, put, run_length, shift, spread};
use crate::scalar::Scalar;
use ec_base::OutOfMemory;
use ec_raw::Block;
use std::alloc::Global;
use std::marker::Model;

/// The bytes of one object: a list of cells, each of which holds a byte, or nothing until one is written. A cell that
/// holds nothing is what ISO/IEC 9899:1999 calls indeterminate (6.2.4, 6.7.8).
#[derive(Debug, Drop)]
pub struct Region {
    // The bytes of `room` cells, and behind them a mark for each. Those behind the first `len` are of no cell.
    block: Block,
    room: usize,
    len: usize,
}

impl Model for Region {
    ghost use Rattle.std.specs.Prelude.{List, ◌≤◌};
    ghost use Rattle.ec_memory_defs.specs.Cells.{Cell};
    ghost use Rattle.ec_bytes.specs.Bits.{marks_of};
    ghost use Rattle.ec_bytes.specs.Region.{Roomy, held};

    ghost Value = { List Cell };

    ghost view = { λ r. held r.len r.block (marks_of r.room r.block) };

    ghost invariant = { λ r. (r.len ≤ r.room) × Roomy r.room r.block };
}

impl Region {
    /// A region of no cells. It takes no memory.
    pub fn new(alloc: Global) -> Region
        ensures { result ≡ [] }
    {
        Region {
            block: Block::new(alloc),
            room: 0,
            len: 0,
        }
    }

    /// How many cells there are.
    pub fn len(&self) -> usize
        ensures { result ≡ length self.now }
    {
        self.len
    }

    /// Puts `n` unset cells at the end, and says at which place they begin. Where there is no memory for them, or the
    /// new length fits no `usize`, the region stays as it was.
    #[inline(always)]
    pub fn extend(&mut self, n: usize) -> Result<usize, OutOfMemory>
        ensures start { IfOk result (λ start. start ≡ length self.old) }
        ensures ok { OnOk result (self.new ≡ self.old ++ unset_cells n) }
        ensures err { OnErr result (self.new ≡ self.old) }
    {
        let start = self.len;
        let Some(len) = start.checked_add(n) else {
            return Err(OutOfMemory);
        };
        make_room(&mut self.block, &mut self.room, len)?;
        let room = self.room;
        mark(self.block.bytes_mut(), room, start, n, false);
        self.len = len;
        Ok(start)
    }

    /// Drops all cells but the first `len`, of which there are as many or more.
    pub fn cut(&mut self, len: usize)
        requires { len ≤ length self.old }
        ensures { self.new ≡ take len self.old }
    {
        self.len = len;
    }

    /// The `n` bytes from `at` on, or `None` where one of their cells is unset. They lie in the region.
    pub fn bytes(&self, at: usize, n: usize) -> Option<&[u8]>
        requires { at + n ≤ length self.now }
        ensures cells { option_map (λ piece. piece.now) result ≡ bytes_of (part_of self.now at n) }
        ensures length { IfSome result (λ piece. length piece.now ≡ n) }
    {
        let memory = self.block.bytes();
        if all_set(memory, self.room, at, n) {
            Some(part(memory, at, n))
        } else {
            None
        }
    }

    /// The bytes from `at` on, up to a zero byte or a cell that is unset, and at most `n`, which lie in the region.
    pub fn run(&self, at: usize, n: usize) -> &[u8]
        requires { at + n ≤ length self.now }
        ensures { result.now ≡ run_of (part_of self.now at n) }
    {
        let memory = self.block.bytes();
        let count = run_length(memory, self.room, at, n);
        part(memory, at, count)
    }

    /// Writes the bytes of `piece` from `at` on. They fit the region.
    pub fn write(&mut self, at: usize, piece: &[u8])
        requires { at + length piece.now ≤ length self.old }
        ensures cells { self.new ≡ written self.old at (set_cells piece.now) }
        ensures length { length self.new ≡ length self.old }
    {
        let room = self.room;
        let memory = self.block.bytes_mut();
        put(memory, at, piece);
        mark(memory, room, at, piece.len(), true);
    }

    /// Writes `byte` into each of the `n` cells from `at` on, which lie in the region.
    pub fn fill(&mut self, at: usize, n: usize, byte: u8)
        requires { at + n ≤ length self.old }
        ensures cells { self.new ≡ written self.old at (filled_cells n byte) }
        ensures length { length self.new ≡ length self.old }
    {
        let room = self.room;
        let memory = self.block.bytes_mut();
        spread(memory, at, n, byte);
        mark(memory, room, at, n, true);
    }

    /// Copies the `n` cells from `from` on, the unset ones too, to those from `to` on. Both lie in the region, and may
    /// overlap: the copy is of what the cells held before.
    pub fn copy(&mut self, from: usize, to: usize, n: usize)
        requires source { from + n ≤ length self.old }
        requires target { to + n ≤ length self.old }
        ensures cells { self.new ≡ written self.old to (part_of self.old from n) }
        ensures length { length self.new ≡ length self.old }
    {
        let room = self.room;
        let memory = self.block.bytes_mut();
        shift(memory, from, to, n);
        move_marks(memory, room, from, to, n);
    }

    /// Takes the bytes out of the `n` cells from `at` on, which lie in the region, so that they are unset.
    pub fn unset(&mut self, at: usize, n: usize)
        requires { at + n ≤ length self.old }
        ensures cells { self.new ≡ written self.old at (unset_cells n) }
        ensures length { length self.new ≡ length self.old }
    {
        let room = self.room;
        mark(self.block.bytes_mut(), room, at, n, false);
    }

    /// The place of item `i` of those from `at` on that begin at each `step` cells. It lies in the region.
    pub(crate) fn place(&self, at: usize, step: usize, i: usize) -> usize
        requires { at + i * step ≤ length self.now }
        ensures { result ≡ at + i * step }
    {
        // The length of a region fits `usize`, and so does a place in it.
        let _ = self.len();
        let offset = i * step;
        at + offset
    }

    /// The value in the cells from `at` on, or `None` where one of them is unset.
    pub(crate) fn load<T: Scalar>(&self, at: usize) -> Option<T>
        requires { at + T.SIZE ≤ length self.now }
        ensures value { result ≡ value_of T.decode (part_of self.now at T.SIZE) }
        ensures bytes { IfSome result (λ _. HoldBytes (part_of self.now at T.SIZE)) }
    {
        let piece = self.bytes(at, T::SIZE)?;
        Some(decode::<T>(piece))
    }

    /// Writes the bytes of `value` from `at` on.
    pub(crate) fn store<T: Scalar>(&mut self, at: usize, value: T)
        requires { at + T.SIZE ≤ length self.old }
        ensures cells { self.new ≡ written self.old at (set_cells (T.encode value)) }
        ensures length { length self.new ≡ length self.old }
    {
        let room = self.room;
        let memory = self.block.bytes_mut();
        encode(memory, at, value);
        mark(memory, room, at, T::SIZE, true);
    }
}
