//! The memory itself: its objects, and the accesses to them.

ghost use Rattle.std.specs.Prelude.{◌≡◌, ◌+◌, ◌^◌, ◌≤◌, ◌<◌, ◌↔◌, [], ◌∷◌, length, ◌++◌, IfOk, OnOk, OnErr, Ok, Err};
ghost use Rattle.std.specs.Result.{result_err};
ghost use Rattle.ec_base.specs.declared.stop.Trap.TheVariants as trap;
ghost use Rattle.ec_memory.specs.declared.store.MakeStop.TheVariants as stops;
ghost use Rattle.ec_memory_defs.specs.Memory.{cells_at, live_bytes, span, text_at, text_up_to, moved, pointer_to, put, fill, unset, copy, make, make_zeroed, with_object, last_number, end_to};
ghost use Rattle.ec_memory.specs.Store.{first_cells, outcome, seen};

use crate::moves::{moved_to, moved_wide_to};
use crate::place::{Place, count_up_to, object, offset_in, reach};
use crate::texts::{front_in, text_in};
use ec_base::{OutOfMemory, Trap};
use ec_bytes::{Ptr, Region};
use std::alloc::Global;
use std::marker::Model;

/// Why no object was made.
#[derive(Clone, Copy, Debug, PartialEq, Eq)]
pub enum MakeStop {
    /// There would be 2^32 objects since the start, or more than 2^28 bytes would be alive.
    Spent,
    /// There was no memory left.
    OutOfMemory,
}

impl From<OutOfMemory> for MakeStop {
    ghost use Rattle.ec_memory.specs.declared.store.MakeStop.TheVariants as stops;

    ghost from_gives = { λ _ stop. stop ≡ stops.OutOfMemory };

    fn from(_refused: OutOfMemory) -> MakeStop {
        MakeStop::OutOfMemory
    }
}

/// The memory of a C program: the objects that were made so far, in order, each of which is alive with its cells or
/// has ended (ISO/IEC 9899:1999, 6.2.4). A cell holds a byte, or none until one is written (6.2.6.1).
///
/// A pointer is the number of its object, from 1 on, times 2^32, plus an offset in bytes; the null pointer is 0. An
/// access through a pointer (6.5.3.2) is tested in this order, and the first test that fails names its trap: `Null`
/// where the pointer leads to no object, `Dead` where its object has ended or was never made, `Outside` where a byte of
/// the access does not lie in the object, and `Unset` where a byte that is read holds nothing. After a trap nothing is
/// changed.
#[derive(Debug, Drop)]
pub struct Store {
    pub(crate) cells: Region,
    pub(crate) alive: Vec<Place>,
    pub(crate) made: u32,
}

impl Model for Store {
    ghost use Rattle.ec_memory_defs.specs.Memory.{Memory};

    ghost Value = { Memory };

    ghost use Rattle.ec_memory.specs.Objects.{memory_of, Kept};

    ghost view = { λ s. memory_of s.made s.cells s.alive.items };

    ghost invariant = { λ s. Kept s.made s.cells s.alive.items };
}

impl Store {
    /// The memory in which no object was made yet. It takes no memory of the machine.
    pub fn new(alloc: Global) -> Store
        ensures { result ≡ [] }
    {
        Store {
            cells: Region::new(alloc),
            alive: Vec::new(alloc),
            made: 0,
        }
    }

    /// Makes an object of `size` bytes, from 1 to 2^24, and gives the pointer to its first byte. All its bytes are unset.
    /// After an error nothing is changed: `Spent` where there would be 2^32 objects since the start or more than 2^28
    /// bytes alive, and else `OutOfMemory` where the machine has no memory for it.
    #[inline(always)]
    pub fn make(&mut self, size: u64) -> Result<Ptr, MakeStop>
        requires some { 1 ≤ size }
        requires small { size ≤ 2 ^ 24 }
        ensures ok { IfOk result (λ ptr. make self.old size ≡ Ok (ptr.0, self.new)) }
        ensures spent { (result ≡ Err stops.Spent) ↔ (make self.old size ≡ Err trap.Spent) }
        ensures unchanged { OnErr result (self.new ≡ self.old) }
    {
        self.make_cells(size, false)
    }

    /// Makes an object of `size` zero bytes, from 1 to 2^24, and gives the pointer to its first byte. The errors are those
    /// of `make`.
    pub fn make_zeroed(&mut self, size: u64) -> Result<Ptr, MakeStop>
        requires some { 1 ≤ size }
        requires small { size ≤ 2 ^ 24 }
        ensures ok { IfOk result (λ ptr. make_zeroed self.old size ≡ Ok (ptr.0, self.new)) }
        ensures spent { (result ≡ Err stops.Spent) ↔ (make_zeroed self.old size ≡ Err trap.Spent) }
        ensures unchanged { OnErr result (self.new ≡ self.old) }
    {
        self.make_cells(size, true)
    }

    /// Makes an object of `size` bytes, all of them zero or all unset.
    #[inline(always)]
    fn make_cells(&mut self, size: u64, zeroed: bool) -> Result<Ptr, MakeStop>
        requires some { 1 ≤ size }
        requires small { size ≤ 2 ^ 24 }
        ensures ok { IfOk result
            (λ ptr. with_object self.old (first_cells zeroed size) ≡ Ok (ptr.0, self.new)) }
        ensures spent { (result ≡ Err stops.Spent)
            ↔ (with_object self.old (first_cells zeroed size) ≡ Err trap.Spent) }
        ensures unchanged { OnErr result (self.new ≡ self.old) }
    {
        let start = self.cells.len();
        if self.made == u32::MAX || start as u64 + size > 1 << 28 {
            return Err(MakeStop::Spent);
        }
        let place = Place {
            number: self.made + 1,
            start: start as u32,
            size: size as u32,
        };
        match add(&mut self.cells, &mut self.alive, place, zeroed) {
            Ok(()) => {
                self.made += 1;
                Ok(pointer(self.made))
            }
            Err(_) => Err(MakeStop::OutOfMemory),
        }
    }

    /// The number of the object that was made last, or 0: a mark for `end_to`.
    pub fn mark(&self) -> u32
        ensures { result ≡ last_number self.now }
    {
        self.made
    }

    /// Ends every object that was made since `mark` (ISO/IEC 9899:1999, 6.2.4), and gives back their bytes. Their numbers
    /// are not used again, so a pointer to one of them stays dead.
    pub fn end_to(&mut self, mark: u32)
        ensures { self.new ≡ end_to self.old mark }
    {
        let count = count_up_to(&self.alive, mark);
        if count < self.alive.len() {
            let start = self.alive[count].start as usize;
            self.cells.cut(start);
            self.alive.truncate(count);
        }
    }

    /// The pointer that is `by` elements of `size` bytes further on (ISO/IEC 9899:1999, 6.5.6), within its object or one
    /// past the end of it. The traps are `Null`, `Dead`, and `Outside` where it would leave the object.
    #[inline(always)]
    pub fn move_ptr(&self, ptr: Ptr, by: i64, size: u64) -> Result<Ptr, Trap>
        ensures { seen (λ to. to.0) result ≡ moved self.now ptr.0 by size }
    {
        let place = object(&self.alive, ptr)?;
        moved_to(place.size, ptr, by, size)
    }

    /// The same by an index of any 128-bit number, as an evaluated expression has it: no index wraps. The traps are those
    /// of `move_ptr`.
    pub fn move_ptr_wide(&self, ptr: Ptr, by: i128, size: u64) -> Result<Ptr, Trap>
        ensures { seen (λ to. to.0) result ≡ moved self.now ptr.0 by size }
    {
        let place = object(&self.alive, ptr)?;
        moved_wide_to(place.size, ptr, by, size)
    }

    /// Whether `n` bytes at a pointer lie in an object: else `Null`, `Dead` or `Outside`. None of them is read.
    pub(crate) fn reach(&self, ptr: Ptr, n: u128) -> Result<(), Trap>
        ensures trap { result_err result ≡ result_err (cells_at self.now ptr.0 n) }
        ensures few { live_bytes self.now ≤ 2 ^ 28 }
    {
        reach(&self.alive, ptr, n)?;
        Ok(())
    }

    /// The `n` bytes at a pointer, read as one access. The traps are `Null`, `Dead`, `Outside` and `Unset`. No bytes can be
    /// read at each place of an object and one past its end.
    pub fn span(&self, ptr: Ptr, n: u64) -> Result<&[u8], Trap>
        ensures { seen (λ bytes. bytes.now) result ≡ span self.now ptr.0 n }
    {
        let at = reach(&self.alive, ptr, n as u128)?;
        match self.cells.bytes(at, n as usize) {
            Some(bytes) => Ok(bytes),
            None => Err(Trap::Unset),
        }
    }

    /// The bytes at a pointer before the first zero byte, each read as an access of its own (ISO/IEC 9899:1999, 7.1.1). The
    /// traps are `Null` and `Dead`, `Unset` where an unset byte stands before the zero byte, and `Outside` where the object
    /// ends before one.
    pub fn text(&self, ptr: Ptr) -> Result<&[u8], Trap>
        ensures { seen (λ bytes. bytes.now) result ≡ text_at self.now ptr.0 }
    {
        let place = object(&self.alive, ptr)?;
        let offset = offset_in(ptr);
        if offset > place.size {
            return Err(Trap::Outside);
        }
        let at = place.start as usize + offset as usize;
        text_in(&self.cells, at, (place.size - offset) as usize)
    }

    /// The bytes at a pointer before the first zero byte, and at most `limit`, each read as an access of its own; no byte
    /// behind these is read. The traps are those of `text`. Where `limit` is 0 nothing is tested.
    pub fn text_up_to(&self, ptr: Ptr, limit: u64) -> Result<&[u8], Trap>
        ensures { seen (λ bytes. bytes.now) result ≡ text_up_to self.now ptr.0 limit }
    {
        if limit == 0 {
            return Ok(&[]);
        }
        let place = object(&self.alive, ptr)?;
        let offset = offset_in(ptr);
        if offset > place.size {
            return Err(Trap::Outside);
        }
        let at = place.start as usize + offset as usize;
        front_in(&self.cells, at, (place.size - offset) as usize, limit)
    }

    /// Puts the bytes of `piece` at a pointer, as one access. The traps are `Null`, `Dead` and `Outside`.
    pub fn put(&mut self, ptr: Ptr, piece: &[u8]) -> Result<(), Trap>
        ensures outcome { outcome result self.new ≡ put self.old ptr.0 piece.now }
        ensures unchanged { OnErr result (self.new ≡ self.old) }
    {
        let at = reach(&self.alive, ptr, piece.len() as u128)?;
        self.cells.write(at, piece);
        Ok(())
    }

    /// Puts `n` times `byte` at a pointer, as one access. The traps are `Null`, `Dead` and `Outside`.
    pub fn fill(&mut self, ptr: Ptr, n: u64, byte: u8) -> Result<(), Trap>
        ensures outcome { outcome result self.new ≡ fill self.old ptr.0 n byte }
        ensures unchanged { OnErr result (self.new ≡ self.old) }
    {
        let at = reach(&self.alive, ptr, n as u128)?;
        self.cells.fill(at, n as usize, byte);
        Ok(())
    }

    /// Copies the `n` bytes at `from`, unset ones too, to those at `to`. They may overlap: the copy is of what was there
    /// before. The traps are `Null`, `Dead` and `Outside`; the source is tested before the destination.
    pub fn copy(&mut self, to: Ptr, from: Ptr, n: u64) -> Result<(), Trap>
        ensures outcome { outcome result self.new ≡ copy self.old to.0 from.0 n }
        ensures unchanged { OnErr result (self.new ≡ self.old) }
    {
        let source = reach(&self.alive, from, n as u128)?;
        let target = reach(&self.alive, to, n as u128)?;
        self.cells.copy(source, target, n as usize);
        Ok(())
    }

    /// Makes the `n` bytes at a pointer unset, as one access. The traps are `Null`, `Dead` and `Outside`.
    pub fn unset(&mut self, ptr: Ptr, n: u64) -> Result<(), Trap>
        ensures outcome { outcome result self.new ≡ unset self.old ptr.0 n }
        ensures unchanged { OnErr result (self.new ≡ self.old) }
    {
        let at = reach(&self.alive, ptr, n as u128)?;
        self.cells.unset(at, n as usize);
        Ok(())
    }
}

/// The pointer to the first byte of an object.
#[inline(always)]
pub(crate) fn pointer(number: u32) -> Ptr
    ensures { result.0 ≡ pointer_to number 0 }
{
    Ptr((number as u64) << 32)
}

/// Puts an object at the end, with its cells all zero or all unset.
#[inline(always)]
fn add(
    cells: &mut Region,
    alive: &mut Vec<Place>,
    place: Place,
    zeroed: bool,
) -> Result<(), OutOfMemory>
    requires { place.start ≡ length cells.old }
    ensures cells { OnOk result (cells.new ≡ cells.old ++ first_cells zeroed place.size) }
    ensures places { OnOk result (alive.new.items ≡ alive.old.items ++ place ∷ []) }
    ensures same_cells { OnErr result (cells.new ≡ cells.old) }
    ensures same_places { OnErr result (alive.new.items ≡ alive.old.items) }
{
    extend(cells, place.size as usize, zeroed)?;
    match push(alive, place) {
        Ok(()) => Ok(()),
        Err(refused) => {
            cells.cut(place.start as usize);
            Err(refused)
        }
    }
}

/// Puts a place at the end.
#[inline(always)]
pub(crate) fn push(alive: &mut Vec<Place>, place: Place) -> Result<(), OutOfMemory>
    ensures ok { OnOk result (alive.new.items ≡ alive.old.items ++ place ∷ []) }
    ensures err { OnErr result (alive.new.items ≡ alive.old.items) }
{
    alive.push(place)?;
    Ok(())
}

/// Puts `n` cells at the end, all of them zero or all unset.
#[inline(always)]
fn extend(cells: &mut Region, n: usize, zeroed: bool) -> Result<(), OutOfMemory>
    ensures ok { OnOk result (cells.new ≡ cells.old ++ first_cells zeroed n) }
    ensures err { OnErr result (cells.new ≡ cells.old) }
{
    let start = cells.extend(n)?;
    if zeroed {
        cells.fill(start, n, 0);
    }
    Ok(())
}
