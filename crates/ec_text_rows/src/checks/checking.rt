//! What the checks say of a program.

use ec_base::{Bytes, OutOfMemory, Stop};
use ec_front::source::read_checked;
use ec_front::written::read_written;
use itoa::Buffer;
use std::alloc::Global;

// Reads written C and checks it.
fn checked_written(alloc: Global, program: &[u8]) -> Result<(), Stop> {
    match read_written(alloc, program) {
        Ok(_typed) => Ok(()),
        Err(stop) => Err(stop),
    }
}

// Reads a source and checks it.
fn checked_source(alloc: Global, program: &[u8]) -> Result<(), Stop> {
    match read_checked(alloc, program) {
        Ok(_typed) => Ok(()),
        Err(stop) => Err(stop),
    }
}

// Reads a program and checks it, as written C or as a source.
fn checked(alloc: Global, program: &[u8], written: bool) -> Result<(), Stop> {
    if written {
        checked_written(alloc, program)
    } else {
        checked_source(alloc, program)
    }
}

/// Prints a line: `fine`, the first fault with its line, or the limit. Want of memory is no answer, and is given back.
pub fn print_verdict(
    alloc: Global,
    out: &mut Bytes,
    program: &[u8],
    written: bool,
) -> Result<(), OutOfMemory> {
    match checked(alloc, program, written) {
        Ok(()) => out.extend_from_slice(b"fine")?,
        Err(Stop::Refused(kind, line)) => {
            out.extend_from_slice(kind.text().as_bytes())?;
            out.extend_from_slice(b" at line ")?;
            out.extend_from_slice(Buffer::new().format(line.0).as_bytes())?;
        }
        Err(Stop::Limit(kind)) => {
            out.extend_from_slice(b"limit ")?;
            out.extend_from_slice(kind.text().as_bytes())?;
        }
        Err(Stop::OutOfMemory) => return Err(OutOfMemory),
    }
    out.push(b'\n')
}
