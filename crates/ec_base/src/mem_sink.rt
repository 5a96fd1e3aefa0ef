ghost use Rattle.std.specs.Prelude.{◌≡◌, ◌≤◌, ◌<◌, ℕ, List as Sequence, Option, Some, length, IfOk, IsOk, MatchResult};
ghost use Rattle.std.specs.Io.KnownBytes.{Keeps, WriteAppends};
ghost use Rattle.ec_base.specs.Causes.{HasCause};
ghost use Rattle.ec_base.specs.MemSink.{new_store, Takes, FailsToTake};

use crate::calls::Calls;
use crate::sink::Sink;
use crate::stop::{Failed, OutOfMemory};
use std::alloc::Global;
use std::marker::Model;

/// A sink in memory, which takes pieces until it is full and fails where it is told to. A put takes no memory. It
/// keeps nothing back, so that a flush does nothing.
#[derive(Debug, Drop)]
pub struct MemSink {
    held: Vec<u8>,
    room: usize,
    chunk: usize,
    calls: Calls,
}

impl Model for MemSink {
    ghost use Rattle.std.specs.Prelude.{◌≤◌, ◌<◌, length, vec_capacity};
    ghost use Rattle.ec_base.specs.MemSink.{Store};

    ghost Value = { Store };

    ghost view = { λ s. record {
      held = s.held.items;
      room = s.room;
      chunk = s.chunk;
      failing = s.calls.failing;
      call = s.calls.call;
      faults = s.calls.faults;
    } };

    ghost invariant = { λ s. (length s.held.items ≤ s.room)
        × (s.room ≤ vec_capacity s.held) × (0 < s.chunk) };
}

impl MemSink {
    /// An empty sink of `room` bytes, of which a put takes at most `chunk`. The puts that `failing` names, by their
    /// numbers from 0, fail. The number of a put stays at the last value of `u64`.
    pub fn new(
        alloc: Global,
        room: usize,
        chunk: usize,
        failing: &[u64],
    ) -> Result<MemSink, OutOfMemory>
        requires { 1 ≤ chunk }
        ensures { IfOk result (λ sink. sink ≡ new_store room chunk failing.now) }
    {
        Ok(MemSink {
            held: Vec::with_capacity(alloc, room)?,
            room,
            chunk,
            calls: Calls::new(alloc, failing)?,
        })
    }

    /// The bytes that it has taken.
    pub fn held(&self) -> &[u8]
        ensures { result.now ≡ self.now.held }
    {
        self.held.as_slice()
    }
}

impl Sink for MemSink {
    ghost held = { λ s. Some s.held };

    ghost faults = { λ s. s.faults };

    fn put(&mut self, piece: &[u8]) -> Result<usize, Failed>
        requires { 0 < length piece.now }
        ensures some { IfOk result (λ count. 0 < count) }
        ensures bound { IfOk result (λ count. count ≤ length piece.now) }
        ensures bytes { WriteAppends (Some self.old.held) (Some self.new.held) result piece.now }
        ensures cause { HasCause self.old.faults self.new.faults result }
        ensures exact { MatchResult result (λ count. Takes self.old piece.now count self.new)
            (λ _. FailsToTake self.old self.new) }
    {
        let named = self.calls.begin();
        let space = self.room - self.held.len();
        if named || space == 0 {
            return Err(self.calls.fail());
        }
        let count = self.chunk.min(piece.len().min(space));
        match self.held.extend_from_slice(&piece[..count]) {
            Ok(()) => Ok(count),
            Err(_) => unreachable!("`new` has taken the memory"),
        }
    }

    fn flush(&mut self) -> Result<(), Failed>
        ensures bytes { Keeps (Some self.old.held) (Some self.new.held) }
        ensures cause { HasCause self.old.faults self.new.faults result }
        ensures done { IsOk result }
        ensures same { self.new ≡ self.old }
    {
        Ok(())
    }
}
