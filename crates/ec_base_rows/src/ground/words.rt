//! Words and numbers of a line, and how they are printed.

use ec_base::{Bytes, List, OutOfMemory};
use std::alloc::Global;

/// A word, and what stands behind its blank.
pub fn cut(line: &str) -> (&str, &str) {
    line.split_once(" ").unwrap_or((line, ""))
}

/// The number that a word is, 0 where it is none.
pub fn number(word: &str) -> u64 {
    word.parse().unwrap_or(0)
}

/// The numbers of a line.
pub fn numbers(alloc: Global, line: &str) -> Result<List<u64>, OutOfMemory> {
    let mut numbers = List::new(alloc);
    if !line.is_empty() {
        for word in line.split(" ") {
            numbers.push(number(word))?;
        }
    }
    Ok(numbers)
}

/// A number as an index.
pub fn index(number: u64) -> usize {
    usize::try_from(number).unwrap_or(usize::MAX)
}

/// Adds a newline.
pub fn end_line(out: &mut Bytes) -> Result<(), OutOfMemory> {
    out.extend_from_slice(b"\n")
}

/// Adds a word behind a blank.
pub fn put_word(out: &mut Bytes, word: &[u8]) -> Result<(), OutOfMemory> {
    out.extend_from_slice(b" ")?;
    out.extend_from_slice(word)
}

/// Adds a number behind a blank.
pub fn put_number(out: &mut Bytes, number: u64) -> Result<(), OutOfMemory> {
    put_word(out, itoa::Buffer::new().format(number).as_bytes())
}

/// Adds `yes` or `no` behind a blank.
pub fn put_truth(out: &mut Bytes, truth: bool) -> Result<(), OutOfMemory> {
    put_word(out, if truth { b"yes" } else { b"no" })
}
