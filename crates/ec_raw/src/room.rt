//! The block, as Rust's `[MaybeUninit<T>]`: a row of places, each empty or holding a value.
ghost use Rattle.std.specs.Prelude.{◌≡◌, ◌<◌, ℕ, List, Option, Some, None, length, replicate, get_or, slice_set, IfOk, ⊤};
ghost use Rattle.std.specs.Vec.Ownership.{FitsInBlock};
ghost use base.Fml.{ftrue};
ghost use denote.RawPtr.{Ptr};
ghost use Rattle.ec_raw.specs.Ownership.{cells_own, cells_lent, deed_owns};

use std::alloc::{AllocError, Allocator};
use std::marker::{Model, PhantomData, Send, Sync};
use std::mem::{align_of, size_of};

/// Where the block begins. It owns nothing.
pub struct Base<T> {
    pub(crate) ptr: *mut T,
}

impl<T> Clone for Base<T> {
    ghost is_clone = { λ x y. y ≡ x };

    ghost is_infallible = { λ _. ⊤ };

    fn clone(&self) -> Result<Base<T>, AllocError> {
        Ok(*self)
    }
}

impl<T> Copy for Base<T> {}

unsafe impl<T> Send for Base<T> {}

unsafe impl<T> Sync for Base<T> {}

/// The owner of the places while some may be empty. It takes no space.
#[derive(Drop)]
pub struct Room<T> {
    pub(crate) mark: PhantomData<*const T>,
    ghost at: { Ptr },
    ghost slots: { List (Option T) },
}

impl<T> Model for Room<T> {
    ghost also_owns = { λ c. cells_own T.row c.at c.slots };

    ghost also_shares = { λ c _ κ. cells_lent T.row c.at c.slots κ };
}

/// The right to give the block of `len` places at `at` back to `alloc`. It takes no space, and cannot be let go: only
/// `deallocate` takes it.
pub struct Deed<T, A: Allocator> {
    mark: PhantomData<*const (T, A)>,
    ghost at: { Ptr },
    ghost len: { ℕ },
    ghost alloc: { A },
}

impl<T, A: Allocator> Model for Deed<T, A> {
    ghost also_owns = { λ d. deed_owns T.row (A.dealloc_token d.alloc) d.at d.len };

    ghost also_shares = { λ _ _ _. ftrue };
}

unsafe impl<T, A: Allocator + Send> Send for Deed<T, A> {}

// A `&` to it holds nothing.
unsafe impl<T, A: Allocator> Sync for Deed<T, A> {}

/// Takes room for `len` values from `alloc`.
pub(crate) fn allocate<T, A: Allocator>(
    alloc: &A,
    len: usize,
) -> Result<(Base<T>, Room<T>, Deed<T, A>), AllocError>
    requires { FitsInBlock T.row len }
    ensures { IfOk result (λ taken. (taken.1.at ≡ taken.0.ptr) × (taken.1.slots ≡ replicate len None)
        × (taken.2.at ≡ taken.0.ptr) × (taken.2.len ≡ len) × (taken.2.alloc ≡ alloc.now)) }
{
    match alloc.allocate(len * size_of::<T>(), align_of::<T>()) {
        Ok(block) => {
            let base = Base {
                ptr: block as *mut T,
            };
            Ok((base, Room { mark: PhantomData }, Deed { mark: PhantomData }))
        }
        Err(error) => Err(error),
    }
}

/// Gives the room up again.
pub(crate) fn deallocate<T, A: Allocator>(
    alloc: &A,
    base: Base<T>,
    len: usize,
    cells: Room<T>,
    deed: Deed<T, A>,
)
    requires { (cells.at ≡ base.ptr) × (cells.slots ≡ replicate len None)
        × (deed.at ≡ base.ptr) × (deed.len ≡ len) × (deed.alloc ≡ alloc.now) }
{
    let Room { mark: _ } = cells;
    let Deed { mark: _ } = deed;
    unsafe {
        alloc.deallocate(base.ptr as *mut u8, len * size_of::<T>(), align_of::<T>());
    }
}

impl<T> Room<T> {
    /// Writes the first value into an empty place.
    pub(crate) fn write(&mut self, base: Base<T>, index: usize, item: T)
        requires { (base.ptr ≡ self.old.at) × (index < length self.old.slots)
            × (get_or self.old.slots index None ≡ None) }
        ensures { (self.new.at ≡ self.old.at)
            × (self.new.slots ≡ slice_set self.old.slots index (Some item)) }
    {
        unsafe { base.ptr.add(index).write(item) }
    }
}
