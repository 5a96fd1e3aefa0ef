//! A source is read, written, read back and written again.

use ec_base::{Bytes, OutOfMemory, Stop};
use ec_cwrite::write;
use ec_front::unit::read_unit;
use itoa::Buffer;
use std::alloc::Global;

// The written C of a source, or of written C.
fn rewritten(alloc: Global, text: &[u8], written: bool) -> Result<Bytes, Stop> {
    let unit = read_unit(alloc, text, written)?;
    Ok(write(&unit)?)
}

// Why a text is refused, and the end of the line.
fn push_stop(out: &mut Bytes, stop: Stop) -> Result<(), OutOfMemory> {
    match stop {
        Stop::Refused(kind, line) => {
            out.extend_from_slice(kind.text().as_bytes())?;
            out.extend_from_slice(b" at line ")?;
            let mut buffer = Buffer::new();
            out.extend_from_slice(buffer.format(line.0).as_bytes())?;
        }
        Stop::Limit(kind) => {
            out.extend_from_slice(b"limit ")?;
            out.extend_from_slice(kind.text().as_bytes())?;
        }
        Stop::OutOfMemory => return Err(OutOfMemory),
    }
    out.push(b'\n')
}

// Whether written C is read back and written again as the same text.
fn push_verdict(alloc: Global, out: &mut Bytes, text: &[u8]) -> Result<(), OutOfMemory> {
    out.extend_from_slice(b"--- ")?;
    match rewritten(alloc, text, true) {
        Ok(again) if again.as_slice() == text => out.extend_from_slice(b"same\n"),
        Ok(_) => out.extend_from_slice(b"other\n"),
        Err(stop) => push_stop(out, stop),
    }
}

/// Prints the written C of a source and whether it is read back as the same, or why the source is refused.
pub fn rewrite(alloc: Global, out: &mut Bytes, source: &[u8]) -> Result<(), OutOfMemory> {
    match rewritten(alloc, source, false) {
        Ok(text) => {
            out.extend_from_slice(text.as_slice())?;
            push_verdict(alloc, out, text.as_slice())
        }
        Err(stop) => push_stop(out, stop),
    }
}
