//! Rows that are each a question: how they are gone through.

use ec_base::{Bytes, OutOfMemory};
use ec_memory::MakeStop;
use std::alloc::Global;

/// Why a row has no answer.
#[derive(Clone, Copy, Debug)]
pub enum Wrong {
    /// It is no question.
    Form,
    OutOfMemory,
}

impl From<OutOfMemory> for Wrong {
    fn from(_refused: OutOfMemory) -> Wrong {
        Wrong::OutOfMemory
    }
}

impl From<MakeStop> for Wrong {
    fn from(stop: MakeStop) -> Wrong {
        match stop {
            MakeStop::Spent => Wrong::Form,
            MakeStop::OutOfMemory => Wrong::OutOfMemory,
        }
    }
}

/// What answers rows, one after the other.
pub trait Answers {
    /// Shows the answer to a row.
    fn answer(&mut self, alloc: Global, row: &str, shown: &mut Bytes) -> Result<(), Wrong>;
}

// Shows a row, and behind it its answer. Empty lines and remarks have none.
fn show_row<A: Answers>(
    alloc: Global,
    answers: &mut A,
    shown: &mut Bytes,
    row: &str,
) -> Result<(), OutOfMemory> {
    shown.extend_from_slice(row.as_bytes())?;
    if !row.is_empty() && !row.starts_with('#') {
        shown.extend_from_slice(b" = ")?;
        match answers.answer(alloc, row, shown) {
            Ok(()) => {}
            Err(Wrong::Form) => shown.extend_from_slice(b"no question")?,
            Err(Wrong::OutOfMemory) => return Err(OutOfMemory),
        }
    }
    shown.push(b'\n')
}

/// Shows each row with its answer.
pub fn show<A: Answers>(
    alloc: Global,
    answers: &mut A,
    rows: &str,
    shown: &mut Bytes,
) -> Result<(), OutOfMemory> {
    for row in rows.lines() {
        show_row(alloc, answers, shown, row)?;
    }
    Ok(())
}
