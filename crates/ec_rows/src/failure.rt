//! Why rows are not gone through.

use ec_base::{InputStop, OutOfMemory};

/// Why a program of rows stops.
#[derive(Clone, Copy, Debug)]
pub enum Failure {
    /// No section has this name.
    Usage,
    /// The line of this number in its section has no form of a row.
    Form(u32),
    /// The input failed, gave too much, or is no text where one is wanted.
    Input,
    /// The output failed.
    Output,
    OutOfMemory,
}

impl From<OutOfMemory> for Failure {
    fn from(_refused: OutOfMemory) -> Failure {
        Failure::OutOfMemory
    }
}

impl From<InputStop> for Failure {
    fn from(stop: InputStop) -> Failure {
        match stop {
            InputStop::OutOfMemory => Failure::OutOfMemory,
            InputStop::Fault | InputStop::TooLong => Failure::Input,
        }
    }
}

impl Failure {
    /// The exit status of the program, one of those of `sysexits.h` or near to them.
    pub fn status(&self) -> u8 {
        match self {
            Failure::Usage => 64,
            Failure::Form(_) => 65,
            Failure::Input => 66,
            Failure::OutOfMemory => 69,
            Failure::Output => 70,
        }
    }
}
