ghost use Rattle.std.specs.Prelude.{◌≡◌, ◌≤◌, ◌<◌, ℕ, List as Sequence, Option, Some, length, IfOk, MatchResult};
ghost use Rattle.std.specs.Io.{ReadsAtMost};
ghost use Rattle.std.specs.Io.KnownBytes.{ReadConsumes};
ghost use Rattle.ec_base.specs.Causes.{HasCause};
ghost use Rattle.ec_base.specs.MemSource.{new_supply, Gives, FailsToGive};

use crate::calls::Calls;
use crate::list::{Bytes, List};
use crate::source::Source;
use crate::stop::{Failed, OutOfMemory};
use std::alloc::Global;
use std::marker::Model;

/// A source in memory, which gives its bytes in pieces and fails where it is told to.
#[derive(Debug, Drop)]
pub struct MemSource {
    bytes: Bytes,
    given: usize,
    chunk: usize,
    calls: Calls,
}

impl Model for MemSource {
    ghost use Rattle.std.specs.Prelude.{◌≤◌, ◌<◌, drop, length};
    ghost use Rattle.ec_base.specs.MemSource.{Supply};

    ghost Value = { Supply };

    ghost view = { λ s. record {
      left = drop s.given s.bytes;
      chunk = s.chunk;
      failing = s.calls.failing;
      call = s.calls.call;
      faults = s.calls.faults;
    } };

    ghost invariant = { λ s. (s.given ≤ length s.bytes) × (0 < s.chunk) };
}

impl MemSource {
    /// A source of `bytes`, of which a read gives at most `chunk`. The reads that `failing` names, by their numbers from
    /// 0, fail. The number of a read stays at the last value of `u64`.
    pub fn new(
        alloc: Global,
        bytes: &[u8],
        chunk: usize,
        failing: &[u64],
    ) -> Result<MemSource, OutOfMemory>
        requires { 1 ≤ chunk }
        ensures { IfOk result (λ source. source ≡ new_supply bytes.now chunk failing.now) }
    {
        Ok(MemSource {
            bytes: List::from_slice(alloc, bytes)?,
            given: 0,
            chunk,
            calls: Calls::new(alloc, failing)?,
        })
    }
}

impl Source for MemSource {
    ghost left = { λ s. Some s.left };

    ghost faults = { λ s. s.faults };

    fn read(&mut self, buf: &mut [u8]) -> Result<usize, Failed>
        requires { 0 < length buf.old }
        ensures bound { ReadsAtMost result buf.new }
        ensures bytes { ReadConsumes (Some self.old.left) (Some self.new.left) result buf.new }
        ensures cause { HasCause self.old.faults self.new.faults result }
        ensures exact { MatchResult result (λ count. Gives self.old (length buf.old) count self.new)
            (λ _. FailsToGive self.old self.new) }
    {
        if self.calls.begin() {
            return Err(self.calls.fail());
        }
        let left = &self.bytes.as_slice()[self.given..];
        let count = self.chunk.min(buf.len().min(left.len()));
        buf[..count].copy_from_slice(&left[..count]);
        self.given += count;
        Ok(count)
    }
}
