//! Calls of ECPGdo over a link in memory. Each line is the answer of a server, and is printed with what it
//! leaves: the code, the state and the number of rows in `sqlca`, and an int that the row goes into. `docs/CALLS.md` has the
//! form of the lines.

mod answers;
mod running;
mod shows;

use crate::calls::answers::answer;
use crate::calls::running::run;
use ec_base::{Bytes, OutOfMemory};
use std::alloc::Global;

// A row with what its answer leaves. Empty lines and remarks have none.
fn show_row(alloc: Global, shown: &mut Bytes, row: &str) -> Result<(), OutOfMemory> {
    shown.extend_from_slice(row.as_bytes())?;
    if !row.is_empty() && !row.starts_with('#') {
        shown.extend_from_slice(b" = ")?;
        match answer(alloc, row)? {
            Some(reply) => run(alloc, reply, shown)?,
            None => shown.extend_from_slice(b"no answer")?,
        }
    }
    shown.push(b'\n')
}

/// Shows each row with what its answer leaves.
pub fn show_rows(alloc: Global, rows: &str, shown: &mut Bytes) -> Result<(), OutOfMemory> {
    for row in rows.lines() {
        show_row(alloc, shown, row)?;
    }
    Ok(())
}
