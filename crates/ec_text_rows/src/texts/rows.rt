//! Many texts in one: rows.
//!
//! A row begins with a line `=== TASK: LABEL`, and the lines from there to the next row are its text, without the newline
//! of the last of them. In it `{{N*"BYTES"}}` stands for the bytes, N times. The bytes are written as they are printed in
//! quotes. What stands before the first row is passed over.

ghost use Rattle.std.specs.Prelude.{◌<◌};

use crate::printer::Printer;
use crate::texts::task::{MAX_TEXT, Task, show, task_named};
use ec_base::OutOfMemory;
use std::alloc::Global;

// What a row begins with, and the newline before it.
const MARKER: &str = "\n=== ";

// The number that a hexadecimal digit stands for.
fn digit_value(digit: u8) -> u8
    ensures { result < 16 }
{
    match digit {
        b'0'..=b'9' => digit - b'0',
        b'a'..=b'f' => digit - b'a' + 10,
        _ => 0,
    }
}

// Bytes as they are written in quotes, without the quotes.
fn unquoted(alloc: Global, written: &str) -> Result<Vec<u8>, OutOfMemory> {
    let mut bytes = Vec::new(alloc);
    let mut parts = written.split('\\');
    if let Some(first) = parts.next() {
        bytes.extend_from_slice(first.as_bytes())?;
    }
    for part in parts {
        match part.as_bytes() {
            [high, low, rest @ ..] => {
                bytes.push(digit_value(*high) * 16 + digit_value(*low))?;
                bytes.extend_from_slice(rest)?;
            }
            short => bytes.extend_from_slice(short)?,
        }
    }
    Ok(bytes)
}

// What is said behind `{{`: how often, which bytes, and what stands behind `}}`.
fn repetition(written: &str) -> Option<(usize, &str, &str)> {
    let (count, quoted) = written.split_once("*\"")?;
    let (bytes, behind) = quoted.split_once("\"}}")?;
    let count = count.parse::<usize>().ok()?;
    Some((count, bytes, behind))
}

// Puts bytes behind others so many times, or until no text may be so long.
fn push_repeated(text: &mut Vec<u8>, bytes: &[u8], count: usize) -> Result<(), OutOfMemory> {
    for _turn in 0..count {
        if text.len() > MAX_TEXT {
            return Ok(());
        }
        text.extend_from_slice(bytes)?;
    }
    Ok(())
}

// The text of a row.
fn text_of(alloc: Global, written: &str) -> Result<Vec<u8>, OutOfMemory> {
    let mut text = Vec::new(alloc);
    let mut parts = written.split("{{");
    if let Some(first) = parts.next() {
        text.extend_from_slice(first.as_bytes())?;
    }
    for part in parts {
        match repetition(part) {
            Some((count, bytes, behind)) => {
                push_repeated(&mut text, unquoted(alloc, bytes)?.as_slice(), count)?;
                text.extend_from_slice(behind.as_bytes())?;
            }
            None => {
                text.extend_from_slice(b"{{")?;
                text.extend_from_slice(part.as_bytes())?;
            }
        }
    }
    Ok(text)
}

// The task of a row that begins with this line.
fn task_of(head: &str) -> Option<Task> {
    let (name, _label) = head.split_once(": ")?;
    task_named(name.as_bytes())
}

// Prints the first line of a row, and what its task prints.
fn show_row(alloc: Global, printer: &mut Printer, row: &str) -> Result<(), OutOfMemory> {
    let (head, written) = match row.split_once('\n') {
        Some(parts) => parts,
        None => (row, ""),
    };
    printer.plain(b"=== ")?;
    printer.plain(head.as_bytes())?;
    printer.end_line()?;
    match task_of(head) {
        Some(task) => show(alloc, printer, task, text_of(alloc, written)?.as_slice()),
        None => printer.plain(b"no task\n"),
    }
}

/// Prints each row's first line, and what its task prints.
pub fn show_rows(alloc: Global, printer: &mut Printer, rows: &str) -> Result<(), OutOfMemory> {
    let rows = match rows.strip_suffix('\n') {
        Some(rest) => rest,
        None => rows,
    };
    for row in rows.split(MARKER).skip(1) {
        show_row(alloc, printer, row)?;
    }
    Ok(())
}
