//! Bytes that are lent to be written, after one test.

ghost use Rattle.std.specs.Prelude.{◌≡◌, ◌+◌, ◌^◌, ◌≤◌, ℕ, length, IfOk, Ok};
ghost use Rattle.std.specs.Result.{result_err};
ghost use Rattle.std.specs.Borrow.{sem, RestsIfErr};
ghost use Rattle.ec_memory_defs.specs.Memory.{cells_at, live_bytes, offset_of, put, fill};
ghost use Rattle.ec_memory.specs.Objects.{KeepsPlaces, LiesAt};

use crate::place::reach;
use crate::store::Store;
use ec_base::Trap;
use ec_bytes::{Ptr, Scalar};

/// Bytes of an object that are written in parts: `count` of them from a pointer on. All of them lie in the object, which
/// was tested when they were lent, and no write tests it again. Once they are let go, the memory is what the writes made
/// of it.
#[derive(Drop)]
pub struct LentBytes<'a> {
    store: &'a mut Store,
    ptr: Ptr,
    count: u64,
    at: usize,
    ghost lies: { ∥ LiesAt store.now ptr.0 count at ∥₁ },
}

impl Store {
    ghost use Rattle.ec_memory.specs.contracts.store.Store.{the_row};
    ghost use Rattle.ec_memory.specs.Lent.{lent_store, lent_memory, lent_pointer, lent_count};

    /// The `count` bytes at a pointer, to be written in parts, as one access (ISO/IEC 9899:1999, 6.2.6.1). The traps are
    /// `Null`, `Dead`, and `Outside` where they don't all lie in the object. Nothing is read.
    pub fn lend(&mut self, ptr: Ptr, count: u64) -> Result<LentBytes<'_>, Trap>
        ensures* refused { sem 𝓛 (RestsIfErr the_row self.entry
            (λ it. (lent_store it).ghost_name) result (λ last. last ≡ self.old)) }
        ensures trap { result_err result ≡ result_err (cells_at self.old ptr.0 count) }
        ensures same_reference { IfOk result
            (λ it. (lent_store it).ghost_name ≡ self.entry.ghost_name) }
        ensures memory { IfOk result (λ it. lent_memory it ≡ self.old) }
        ensures pointer { IfOk result (λ it. lent_pointer it ≡ ptr.0) }
        ensures count { IfOk result (λ it. lent_count it ≡ count) }
        ensures near { IfOk result (λ _. offset_of ptr.0 + count ≤ 2 ^ 28) }
    {
        let at = self.place_of(ptr, count)?;
        Ok(LentBytes {
            store: self,
            ptr,
            count,
            at,
        })
    }

    /// Where in the region the `count` bytes at a pointer begin, if they lie in an object.
    fn place_of(&self, ptr: Ptr, count: u64) -> Result<usize, Trap>
        ensures trap { result_err result ≡ result_err (cells_at self.now ptr.0 count) }
        ensures place { IfOk result (λ at. LiesAt self.now ptr.0 count at) }
    {
        reach(&self.alive, ptr, count as u128)
    }

    /// Writes the bytes of `piece` at a place of the region.
    #[inline(always)]
    fn write_at(&mut self, at: usize, piece: &[u8])
        requires { at + length piece.now ≤ live_bytes self.old }
        ensures memory { (p : ℕ) → LiesAt self.old p (length piece.now) at
            → put self.old p piece.now ≡ Ok self.new }
        ensures kept { KeepsPlaces self.old self.new }
    {
        self.cells.write(at, piece);
    }

    /// Writes the bytes of `value` at a place of the region.
    #[inline(always)]
    fn set_at<T: Scalar>(&mut self, at: usize, value: T)
        requires { at + T.SIZE ≤ live_bytes self.old }
        ensures memory { (p : ℕ) → LiesAt self.old p T.SIZE at
            → put self.old p (T.encode value) ≡ Ok self.new }
        ensures kept { KeepsPlaces self.old self.new }
    {
        self.cells.view_mut::<T>(at).set(value);
    }

    /// Writes `count` times `byte` at a place of the region.
    #[inline(always)]
    fn fill_at(&mut self, at: usize, count: usize, byte: u8)
        requires { at + count ≤ live_bytes self.old }
        ensures memory { (p : ℕ) → LiesAt self.old p count at
            → fill self.old p count byte ≡ Ok self.new }
        ensures kept { KeepsPlaces self.old self.new }
    {
        self.cells.fill(at, count, byte);
    }
}

impl LentBytes<'_> {
    ghost use Rattle.ec_memory.specs.Lent.{IsSameBytes, lent_memory, lent_pointer, lent_count};

    /// Writes the bytes of `value`, so many bytes behind the first, and no other byte. They are among those that are lent.
    #[inline(always)]
    pub fn set<T: Scalar>(&mut self, behind: u64, value: T)
        requires { behind + T.SIZE ≤ lent_count self.old }
        ensures same { IsSameBytes self.old self.new }
        ensures memory { put (lent_memory self.old) (lent_pointer self.old + behind)
            (T.encode value) ≡ Ok (lent_memory self.new) }
    {
        let at = self.place(behind);
        self.store.set_at(at, value);
    }

    /// Writes the bytes of `piece`, so many bytes behind the first, and no other byte. They are among those that are lent.
    #[inline(always)]
    pub fn put(&mut self, behind: u64, piece: &[u8])
        requires { behind + length piece.now ≤ lent_count self.old }
        ensures same { IsSameBytes self.old self.new }
        ensures memory { put (lent_memory self.old) (lent_pointer self.old + behind) piece.now
            ≡ Ok (lent_memory self.new) }
    {
        let at = self.place(behind);
        self.store.write_at(at, piece);
    }

    /// Writes `count` times `byte`, so many bytes behind the first, and no other byte. They are among those that are lent.
    #[inline(always)]
    pub fn fill(&mut self, behind: u64, count: u64, byte: u8)
        requires { behind + count ≤ lent_count self.old }
        ensures same { IsSameBytes self.old self.new }
        ensures memory { fill (lent_memory self.old) (lent_pointer self.old + behind) count byte
            ≡ Ok (lent_memory self.new) }
    {
        let at = self.place(behind);
        self.store.fill_at(at, count as usize, byte);
    }

    /// The place of the region that is so many bytes behind the first.
    #[inline(always)]
    fn place(&self, behind: u64) -> usize
        requires { behind ≤ lent_count self.now }
        ensures { result ≡ self.now.at + behind }
    {
        self.at + behind as usize
    }
}
