ghost use Rattle.std.specs.Prelude.{None};

use ec_base::{Failed, Sink};

/// A sink that takes everything, and shows nothing of it.
#[derive(Clone, Copy, Debug)]
pub struct Unseen;

impl Sink for Unseen {
    ghost held = { λ s. None };

    ghost faults = { λ s. 0 };

    fn put(&mut self, piece: &[u8]) -> Result<usize, Failed> {
        Ok(piece.len())
    }

    fn flush(&mut self) -> Result<(), Failed> {
        Ok(())
    }
}
