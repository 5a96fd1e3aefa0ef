//! Why a row has no answer.

use ec_base::OutOfMemory;

/// Why a row has no answer.
#[derive(Clone, Copy, Debug)]
pub enum Wrong {
    /// It is no row.
    Form,
    OutOfMemory,
}

impl From<OutOfMemory> for Wrong {
    fn from(_refused: OutOfMemory) -> Wrong {
        Wrong::OutOfMemory
    }
}
