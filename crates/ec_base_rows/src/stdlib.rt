//! Calls known functions as rows say: `docs/rows/CALLING.md` has their form.

mod answer;
mod format;
mod row;

use crate::answers::{Answers, Wrong};
use crate::stdlib::row::answer_to;
use ec_base::Bytes;
use ec_memory::Store;
use std::alloc::Global;

/// The memory that the calls so far have left.
#[derive(Drop)]
pub struct Calls {
    memory: Store,
}

impl Calls {
    /// Nothing is made yet.
    pub fn new(alloc: Global) -> Calls {
        Calls {
            memory: Store::new(alloc),
        }
    }
}

impl Answers for Calls {
    fn answer(&mut self, alloc: Global, row: &str, shown: &mut Bytes) -> Result<(), Wrong> {
        answer_to(alloc, &mut self.memory, shown, row)
    }
}
