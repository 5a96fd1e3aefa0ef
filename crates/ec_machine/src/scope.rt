//! The objects in scope.

ghost use Rattle.std.specs.Prelude.{◌≡◌, ◌+◌, ◌++◌, ◌∷◌, [], OnOk, OnErr};
ghost use Rattle.ec_machine.specs.Frames.{cut, objects_of};

use ec_base::{List, OutOfMemory};
use ec_bytes::Ptr;
use std::alloc::Global;

/// The objects of all functions that were called and have not returned, by their pointers, and how many of the last of them
/// are those in scope: parameters first (ISO/IEC 9899:1999, 6.2.1).
#[derive(Drop)]
pub struct Scope {
    pub pointers: List<Ptr>,
    pub count: usize,
}

impl Scope {
    /// The scope without objects. It takes no memory.
    pub fn new(alloc: Global) -> Scope
        ensures { result ≡ record { pointers = []; count = 0 } }
    {
        Scope {
            pointers: List::new(alloc),
            count: 0,
        }
    }

    /// The objects in scope.
    pub fn objects(&self) -> &[Ptr]
        ensures { result.now ≡ objects_of self.now }
    {
        let from = self.pointers.len().saturating_sub(self.count);
        &self.pointers.as_slice()[from..]
    }

    /// Puts an object behind the others. After an error, which is that there was no memory, nothing is changed.
    pub fn push(&mut self, ptr: Ptr) -> Result<(), OutOfMemory>
        ensures ok { OnOk result (self.new ≡ record {
          pointers = self.old.pointers ++ ptr ∷ [];
          count
              = self.old.count + 1;
        }) }
        ensures err { OnErr result (self.new ≡ self.old) }
    {
        let Some(count) = self.count.checked_add(1) else {
            // Out of reach, which isn't proved: the count is at most the length of the list, which is below 2^63.
            return Err(OutOfMemory);
        };
        self.pointers.push(ptr)?;
        self.count = count;
        Ok(())
    }

    /// Begins a function, which has no objects yet, and gives the number of those that were in scope.
    pub fn enter(&mut self) -> usize
        ensures count { result ≡ self.old.count }
        ensures scope { self.new ≡ record { pointers = self.old.pointers; count = 0 } }
    {
        let saved = self.count;
        self.count = 0;
        saved
    }

    /// Leaves the first pointers, of which so many are those in scope.
    pub fn cut(&mut self, height: usize, count: usize)
        ensures { self.new ≡ cut height count self.old }
    {
        self.pointers.truncate(height);
        self.count = count;
    }
}
