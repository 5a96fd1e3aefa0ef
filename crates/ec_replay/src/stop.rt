//! Why a transcript was not replayed.
ghost use Rattle.std.specs.Prelude.{◌≡◌};
ghost use Rattle.ec_replay.specs.Stops.{of_input, of_text};
ghost use Rattle.ec_replay.specs.declared.stop.ReplayStop.TheVariants as stops;

use ec_base::{InputStop, Line, OutOfMemory};
use ec_transcript::ReadStop;
use thiserror::Error;

/// Why a transcript was not replayed.
#[derive(Debug, Drop, Error)]
pub enum ReplayStop {
    /// The source failed.
    #[error("the transcript was not read to its end")]
    ReadFault,
    /// The source gave more than 2^24 bytes.
    #[error("the transcript is too long")]
    TooLong,
    /// No transcript has the lines up to this one as its first lines.
    #[error("no transcript has this line")]
    Bad(Line),
    /// There was no memory left.
    #[error("out of memory")]
    OutOfMemory,
}

impl From<InputStop> for ReplayStop {
    ghost from_gives = { λ stop it. it ≡ of_input stop };

    fn from(stop: InputStop) -> ReplayStop {
        match stop {
            InputStop::Fault => ReplayStop::ReadFault,
            InputStop::TooLong => ReplayStop::TooLong,
            InputStop::OutOfMemory => ReplayStop::OutOfMemory,
        }
    }
}

impl From<ReadStop> for ReplayStop {
    ghost from_gives = { λ stop it. it ≡ of_text stop };

    fn from(stop: ReadStop) -> ReplayStop {
        match stop {
            ReadStop::Bad(line) => ReplayStop::Bad(line),
            ReadStop::OutOfMemory => ReplayStop::OutOfMemory,
        }
    }
}

impl From<OutOfMemory> for ReplayStop {
    ghost from_gives = { λ _ it. it ≡ stops.OutOfMemory };

    fn from(_refused: OutOfMemory) -> ReplayStop {
        ReplayStop::OutOfMemory
    }
}
