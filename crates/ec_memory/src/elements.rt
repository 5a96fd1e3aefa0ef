ghost use Rattle.std.specs.Prelude.{◌≡◌, ◌+◌, ◌*◌, ◌^◌, ◌≤◌, ◌<◌, ℕ, IfOk, MatchOption, Ok, Err};
ghost use Rattle.std.specs.Result.{result_err};
ghost use Rattle.std.specs.Borrow.{sem, RestsIfErr};
ghost use Rattle.ec_base.specs.declared.stop.Trap.TheVariants as trap;
ghost use Rattle.ec_memory_defs.specs.Memory.{offset_of, cells_at, extent, span, put};
ghost use Rattle.ec_memory.specs.Objects.{Reaches};
ghost use Rattle.ec_memory.specs.Store.{seen};

use crate::store::Store;
use ec_base::Trap;
use ec_bytes::{Ptr, Scalar};
use std::marker::PhantomData;

/// Elements of an object that are read and written as a `T` each: `count` of them, and each begins `step` bytes behind
/// the one before. All of them lie in the object. Once they are let go, the memory is what the writes made of it.
#[derive(Drop)]
pub struct Elements<'a, T: Scalar> {
    store: &'a mut Store,
    ptr: Ptr,
    count: u64,
    step: u64,
    kind: PhantomData<T>,
    ghost reaches: { Reaches store.now ptr.0 count step T.SIZE },
}

impl Store {
    ghost use Rattle.ec_memory.specs.contracts.store.Store.{the_row};
    ghost use Rattle.ec_memory.specs.Elements.{elements_store, elements_memory, elements_count, element_at};

    /// The `count` elements at a pointer, to be read and written as a `T` each: those of an array, or one member of each
    /// (ISO/IEC 9899:1999, 6.2.5, 6.5.2.1). There is one or more, each begins `step` bytes behind the one before, and a step
    /// is as long as a `T` or longer. The traps are `Null`, `Dead`, and `Outside` where they don't all lie in the object.
    /// Nothing is read.
    pub fn elements<T: Scalar>(
        &mut self,
        ptr: Ptr,
        count: u64,
        step: u64,
    ) -> Result<Elements<'_, T>, Trap>
        requires step { T.SIZE ≤ step }
        requires some { 1 ≤ count }
        ensures* refused { sem 𝓛 (RestsIfErr the_row self.entry
            (λ it. (elements_store it).ghost_name) result (λ last. last ≡ self.old)) }
        ensures trap { result_err result
            ≡ result_err (cells_at self.old ptr.0 (extent count step T.SIZE)) }
        ensures same_reference { IfOk result
            (λ it. (elements_store it).ghost_name ≡ self.entry.ghost_name) }
        ensures memory { IfOk result (λ it. elements_memory it ≡ self.old) }
        ensures count { IfOk result (λ it. elements_count it ≡ count) }
        ensures places { IfOk result (λ it. (i : ℕ) → element_at it i ≡ ptr.0 + i * step) }
    {
        self.reach(ptr, (count as u128 - 1) * step as u128 + T::SIZE as u128)?;
        Ok(Elements {
            store: self,
            ptr,
            count,
            step,
            kind: PhantomData,
        })
    }
}

impl<T: Scalar> Elements<'_, T> {
    ghost use Rattle.ec_memory.specs.Elements.{IsSameElements, elements_memory, elements_count, element_at};

    /// Element `i`, the first being 0, or `None` where one of its bytes is unset. There are more than `i`.
    pub fn get(&self, i: u64) -> Option<T>
        requires { i < elements_count self.now }
        ensures { MatchOption result
            (span (elements_memory self.now) (element_at self.now i) T.SIZE ≡ Err trap.Unset)
            (λ value. seen T.decode (span (elements_memory self.now) (element_at self.now i) T.SIZE)
            ≡ Ok value) }
    {
        self.store.read(place(self.ptr, i, self.step)).ok()
    }

    /// Writes the bytes of `value` as element `i`, the first being 0, and no other byte. There are more than `i`.
    pub fn set(&mut self, i: u64, value: T)
        requires { i < elements_count self.old }
        ensures same { IsSameElements self.old self.new }
        ensures memory { put (elements_memory self.old) (element_at self.old i) (T.encode value)
            ≡ Ok (elements_memory self.new) }
    {
        // Each element lies in the object, so no write traps.
        let _ = self.store.write(place(self.ptr, i, self.step), value);
    }
}

/// The pointer that is `i` steps behind another of the same object.
fn place(ptr: Ptr, i: u64, step: u64) -> Ptr
    requires { offset_of ptr.0 + i * step < 2 ^ 32 }
    ensures { result.0 ≡ ptr.0 + i * step }
{
    Ptr(ptr.0 + i * step)
}
