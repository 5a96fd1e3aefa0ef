//! The objects of the innermost block (ISO/IEC 9899:1999, 6.2.4).

ghost use Rattle.std.specs.Prelude.{◌≡◌, ◌+◌, IfOk, length};

use ec_base::{List, OutOfMemory};
use ec_code::ObjectSize;

/// The objects of a block.
#[derive(Debug, Drop)]
pub struct BlockObjects {
    /// How many objects are in scope when it is entered.
    pub below: u32,
    /// How many it makes.
    pub count: u32,
    /// The sizes of those that are declared so far.
    pub sizes: List<ObjectSize>,
}

impl BlockObjects {
    /// The place of its next object among those in scope.
    pub(crate) fn next_slot(&self) -> Result<u32, OutOfMemory>
        ensures { IfOk result (λ slot. slot ≡ self.now.below + length self.now.sizes) }
    {
        let declared = self.sizes.len();
        if declared > u32::MAX as usize {
            // Out of reach, which isn't proved: a source has at most 2^22 tokens, so it has fewer objects.
            return Err(OutOfMemory);
        }
        match self.below.checked_add(declared as u32) {
            Some(slot) => Ok(slot),
            // Out of reach, as above.
            None => Err(OutOfMemory),
        }
    }

    /// How many objects are in scope when all of its objects are there.
    pub(crate) fn above(&self) -> Result<u32, OutOfMemory>
        ensures { IfOk result (λ above. above ≡ self.now.below + self.now.count) }
    {
        match self.below.checked_add(self.count) {
            Some(above) => Ok(above),
            // Out of reach, which isn't proved: a source has at most 2^22 tokens, so it has fewer objects.
            None => Err(OutOfMemory),
        }
    }
}
