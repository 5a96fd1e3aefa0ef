ghost use Rattle.std.specs.Prelude.{◌≡◌, ◌≤◌, ◌↔◌, Contains, IfOk, IsTrue};
ghost use Rattle.ec_base.specs.Causes.{one_more};

use crate::list::List;
use crate::stop::{Failed, OutOfMemory};
use std::alloc::Global;

/// The calls of an object in memory: which of them fail, the number of the next one, and how many failed.
#[derive(Debug, Drop)]
pub struct Calls {
    pub failing: List<u64>,
    pub call: u64,
    pub faults: u64,
}

impl Calls {
    pub fn new(alloc: Global, failing: &[u64]) -> Result<Calls, OutOfMemory>
        ensures { IfOk result
            (λ calls. calls ≡ record { failing = failing.now; call = 0; faults = 0 }) }
    {
        Ok(Calls {
            failing: List::from_slice(alloc, failing)?,
            call: 0,
            faults: 0,
        })
    }

    /// Counts a call, and says whether it is one of those that fail.
    pub fn begin(&mut self) -> bool
        ensures named { IsTrue result ↔ Contains self.old.failing self.old.call }
        ensures after { self.new ≡ record self.old { call = one_more self.old.call } }
    {
        let named = self.failing.as_slice().contains(&self.call);
        self.call = self.call.saturating_add(1);
        named
    }

    /// Counts a fault.
    pub fn fail(&mut self) -> Failed
        ensures after { self.new ≡ record self.old { faults = one_more self.old.faults } }
        ensures later { self.old.faults ≤ self.new.faults }
    {
        self.faults = self.faults.saturating_add(1);
        Failed
    }
}
