//! Many sources in one text: rows.
//!
//! A row begins with a line `=== LABEL`, and the lines from there to the next row are its source, without the newline of
//! the last of them. What stands before the first row is passed over.

use crate::rewriting::source::rewrite;
use ec_base::{Bytes, OutOfMemory};
use std::alloc::Global;

// What a row begins with, and the newline before it.
const MARKER: &str = "\n=== ";

// Prints the first line of a row, and what is written of its source.
fn rewrite_row(alloc: Global, out: &mut Bytes, row: &str) -> Result<(), OutOfMemory> {
    let (label, source) = match row.split_once('\n') {
        Some(parts) => parts,
        None => (row, ""),
    };
    out.extend_from_slice(b"=== ")?;
    out.extend_from_slice(label.as_bytes())?;
    out.push(b'\n')?;
    rewrite(alloc, out, source.as_bytes())
}

/// Prints each row's first line, and what is written of its source.
pub fn rewrite_rows(alloc: Global, out: &mut Bytes, rows: &str) -> Result<(), OutOfMemory> {
    let rows = match rows.strip_suffix('\n') {
        Some(rest) => rest,
        None => rows,
    };
    for row in rows.split(MARKER).skip(1) {
        rewrite_row(alloc, out, row)?;
    }
    Ok(())
}
