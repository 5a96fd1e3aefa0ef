ghost use Rattle.std.specs.Prelude.{◌≡◌, ◌<◌, length, MatchResult};
ghost use Rattle.std.specs.Io.{ReadsAtMost};
ghost use Rattle.std.specs.Io.KnownBytes.{ReadConsumes};
ghost use Rattle.ec_base.specs.Causes.{HasCause, one_more};

use crate::source::Source;
use crate::stop::Failed;
use std::io::Read;
use std::marker::Model;

/// A reader of std as a source, which contracts see as the reader and its count of faults.
///
/// It tells what the reader tells. Of a file or a pipe that is nothing: what they give is outside what is proved.
#[derive(Drop)]
pub struct StdSource<R: Read + Drop> {
    reader: R,
    faults: u64,
}

impl<R: Read + Drop> Model for StdSource<R> {
    ghost use Rattle.std.specs.Prelude.{ℕ};
    ghost use Rattle.std.specs.Coded.{coded×, coded_ℕ};

    ghost Value = { R × ℕ };

    ghost coded = { coded× R.code coded_ℕ };

    ghost view = { λ s. (s.reader, s.faults) };
}

impl<R: Read + Drop> StdSource<R> {
    /// A source that has not failed.
    pub fn new(reader: R) -> StdSource<R>
        ensures { result ≡ (reader, 0) }
    {
        StdSource { reader, faults: 0 }
    }
}

impl<R: Read + Drop> Source for StdSource<R> {
    ghost left = { λ s. R.remaining s.0 };

    ghost faults = { λ s. s.1 };

    fn read(&mut self, buf: &mut [u8]) -> Result<usize, Failed>
        requires { 0 < length buf.old }
        ensures bound { ReadsAtMost result buf.new }
        ensures bytes { ReadConsumes (R.remaining self.old.0)
            (R.remaining self.new.0) result buf.new }
        ensures cause { HasCause self.old.1 self.new.1 result }
        ensures exact { MatchResult result (λ _. self.new.1 ≡ self.old.1)
            (λ _. self.new.1 ≡ one_more self.old.1) }
    {
        match self.reader.read(buf) {
            Ok(count) => Ok(count),
            Err(_) => {
                self.faults = self.faults.saturating_add(1);
                Err(Failed)
            }
        }
    }
}
