//! The block once each place holds a value.
ghost use Rattle.std.specs.Prelude.{◌≡◌, List, [], Some, None, map, length, replicate};
ghost use Rattle.std.specs.Borrow.{sem};
ghost use denote.RawPtr.{Ptr};
ghost use Rattle.ec_raw.specs.Places.{IsFull};
ghost use Rattle.ec_raw.specs.Ownership.{cells_own, cells_lent};

use crate::room::{Base, Room};
use std::marker::{Model, PhantomData, Send, Sync};
use std::slice;

/// The owner of the values. It takes no space.
#[derive(Drop)]
pub struct Cells<T> {
    mark: PhantomData<*const T>,
    ghost at: { Ptr },
    ghost items: { List T },
}

impl<T> Model for Cells<T> {
    ghost also_owns = { λ c. cells_own T.row c.at (map Some c.items) };

    ghost also_shares = { λ c _ κ. cells_lent T.row c.at (map Some c.items) κ };
}

unsafe impl<T: Send> Send for Cells<T> {}

unsafe impl<T: Sync> Sync for Cells<T> {}

impl<T> Cells<T> {
    ghost use Rattle.ec_raw.specs.Lends.{lends_all};

    /// A place with nothing in it, for which no memory is taken.
    pub(crate) fn none() -> (Base<T>, Cells<T>)
        ensures { (result.1.at ≡ result.0.ptr) × (result.1.items ≡ []) }
    {
        let none: [T; 0] = [];
        (
            Base {
                ptr: &raw const none as *mut T,
            },
            Cells { mark: PhantomData },
        )
    }

    /// What was room holds values, since each place was written.
    pub(crate) fn of(room: Room<T>) -> Cells<T>
        requires { IsFull room.slots }
        ensures { (result.at ≡ room.at) × (map Some result.items ≡ room.slots) }
    {
        let Room { mark } = room;
        Cells { mark }
    }

    /// Forgets the values.
    pub(crate) fn emptied(self) -> Room<T>
        ensures { (result.at ≡ self.at) × (result.slots ≡ replicate (length self.items) None) }
    {
        let Cells { mark } = self;
        Room { mark }
    }

    /// Lends all values.
    pub fn slice(&self, base: Base<T>, len: usize) -> &[T]
        requires { (base.ptr ≡ self.now.at) × (len ≡ length self.now.items) }
        ensures { result.now ≡ self.now.items }
    {
        unsafe { slice::from_raw_parts(base.ptr, len) }
    }

    /// Lends all values to be written.
    pub fn slice_mut(&mut self, base: Base<T>, len: usize) -> &mut [T]
        requires { (base.ptr ≡ self.old.at) × (len ≡ length self.old.items) }
        ensures* writes_back { sem 𝓛 (lends_all T.row self.entry result) }
        ensures value { result.now ≡ self.old.items }
    {
        unsafe { slice::from_raw_parts_mut(base.ptr, len) }
    }
}
