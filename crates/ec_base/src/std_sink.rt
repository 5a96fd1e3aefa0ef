ghost use Rattle.std.specs.Prelude.{◌≡◌, ◌≤◌, ◌<◌, length, IfOk, MatchResult};
ghost use Rattle.std.specs.Io.KnownBytes.{Keeps, WriteAppends};
ghost use Rattle.ec_base.specs.Causes.{HasCause, one_more};

use crate::sink::Sink;
use crate::stop::Failed;
use std::io::Write;
use std::marker::Model;

/// A writer of std as a sink, which contracts see as the writer and its count of faults. A write that takes no byte
/// counts as a fault.
///
/// It tells what the writer tells. Of a file or a pipe that is nothing: what becomes of the bytes there is outside what is
/// proved. A `BufWriter` serves where many small pieces are put: `flush` writes what it keeps back, and a write that fails
/// is counted there or at the put for which room was to be made.
#[derive(Drop)]
pub struct StdSink<W: Write + Drop> {
    writer: W,
    faults: u64,
}

impl<W: Write + Drop> Model for StdSink<W> {
    ghost use Rattle.std.specs.Prelude.{ℕ};
    ghost use Rattle.std.specs.Coded.{coded×, coded_ℕ};

    ghost Value = { W × ℕ };

    ghost coded = { coded× W.code coded_ℕ };

    ghost view = { λ s. (s.writer, s.faults) };
}

impl<W: Write + Drop> StdSink<W> {
    /// A sink that has not failed.
    pub fn new(writer: W) -> StdSink<W>
        ensures { result ≡ (writer, 0) }
    {
        StdSink { writer, faults: 0 }
    }
}

impl<W: Write + Drop> Sink for StdSink<W> {
    ghost held = { λ s. W.contents s.0 };

    ghost faults = { λ s. s.1 };

    fn put(&mut self, piece: &[u8]) -> Result<usize, Failed>
        requires { 0 < length piece.now }
        ensures some { IfOk result (λ count. 0 < count) }
        ensures bound { IfOk result (λ count. count ≤ length piece.now) }
        ensures bytes { WriteAppends (W.contents self.old.0)
            (W.contents self.new.0) result piece.now }
        ensures cause { HasCause self.old.1 self.new.1 result }
        ensures exact { MatchResult result (λ _. self.new.1 ≡ self.old.1)
            (λ _. self.new.1 ≡ one_more self.old.1) }
    {
        match self.writer.write(piece) {
            Ok(0) | Err(_) => {
                self.faults = self.faults.saturating_add(1);
                Err(Failed)
            }
            Ok(count) => Ok(count),
        }
    }

    fn flush(&mut self) -> Result<(), Failed>
        ensures bytes { Keeps (W.contents self.old.0) (W.contents self.new.0) }
        ensures cause { HasCause self.old.1 self.new.1 result }
        ensures exact { MatchResult result (λ _. self.new.1 ≡ self.old.1)
            (λ _. self.new.1 ≡ one_more self.old.1) }
    {
        match self.writer.flush() {
            Ok(()) => Ok(()),
            Err(_) => {
                self.faults = self.faults.saturating_add(1);
                Err(Failed)
            }
        }
    }
}
