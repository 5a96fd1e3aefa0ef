//! Many programs in one text: rows.
//!
//! A row begins with a line `=== LABEL`, and the lines from there to the next row are its program, without the newline of
//! the last of them. What stands before the first row is passed over. A program whose label begins with the word `written`
//! is read as written C.

use crate::checks::checking::print_verdict;
use ec_base::{Bytes, OutOfMemory};
use std::alloc::Global;

// What a row begins with, and the newline before it.
const MARKER: &str = "\n=== ";

// What the label of written C begins with.
const WRITTEN: &str = "written ";

// Prints the first line of a row, and what the checks say of its program.
fn check_row(alloc: Global, out: &mut Bytes, row: &str) -> Result<(), OutOfMemory> {
    let (label, program) = match row.split_once('\n') {
        Some(parts) => parts,
        None => (row, ""),
    };
    out.extend_from_slice(b"=== ")?;
    out.extend_from_slice(label.as_bytes())?;
    out.push(b'\n')?;
    print_verdict(alloc, out, program.as_bytes(), label.starts_with(WRITTEN))
}

/// Prints each row's first line, and what the checks say of its program.
pub fn check_rows(alloc: Global, out: &mut Bytes, rows: &str) -> Result<(), OutOfMemory> {
    let rows = match rows.strip_suffix('\n') {
        Some(rest) => rest,
        None => rows,
    };
    let mut parts = rows.split(MARKER);
    if let Some(first) = parts.next() {
        if let Some(first) = first.strip_prefix("=== ") {
            check_row(alloc, out, first)?;
        }
    }
    for row in parts {
        check_row(alloc, out, row)?;
    }
    Ok(())
}
