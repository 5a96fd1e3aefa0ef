//! Runs the tool over rows: lines say what each call is given, and what it leaves is printed. `docs/rows/ROWS.md`
//! has the form of both.

mod call;

use crate::runs::call::{make_call, put_statuses};
use ec_base::Bytes;
use ec_rows::Failure;
use ec_run_parts::{Act, Setup, Stop};
use std::alloc::Global;

// Takes a line, and does what it asks for.
fn take(alloc: Global, setup: &mut Setup, line: &[u8], out: &mut Bytes) -> Result<(), Stop> {
    match setup.take(alloc, line)? {
        Act::Next => Ok(()),
        Act::Call => make_call(alloc, &setup.source, &mut setup.given, out),
        Act::Endings => put_statuses(out).map_err(|_| Stop::OutOfMemory),
    }
}

/// Shows what each call of these lines leaves.
pub fn show_rows(alloc: Global, rows: &[u8], out: &mut Bytes) -> Result<(), Failure> {
    let mut setup = Setup::new(alloc)?;
    let mut number = 0u32;
    for line in rows.split(|byte| *byte == b'\n') {
        number = number.saturating_add(1);
        if let Err(stop) = take(alloc, &mut setup, line, out) {
            return Err(stop.at(number));
        }
    }
    Ok(())
}
