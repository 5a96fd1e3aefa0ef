//! Parts of a line: words, numbers, and texts in quotes.
ghost use Rattle.std.specs.Prelude.{◌≤◌, length};

use ec_base::{Bytes, List, OutOfMemory};
use std::alloc::Global;

/// The word that a line begins with.
#[derive(Clone, Copy, Debug, PartialEq, Eq)]
pub enum Word {
    Nothing,
    Row,
    Source,
    Line,
    More,
    Statuses,
    Times,
    Go,
    Words,
    Chunk,
    Room,
    Reads,
    Puts,
    Last,
    Slot,
    Breaks,
    Refusals,
    Notice,
    Reply,
    Column,
    Fields,
    Connected,
    NoTarget,
    Broken,
    Rows,
    Done,
    Refused,
}

/// How each word is written.
const WORDS: [(&[u8], Word); 28] = [
    (b"", Word::Nothing),
    (b"#", Word::Nothing),
    (b"row", Word::Row),
    (b"source", Word::Source),
    (b"|", Word::Line),
    (b"+", Word::More),
    (b"statuses", Word::Statuses),
    (b"times", Word::Times),
    (b"go", Word::Go),
    (b"words", Word::Words),
    (b"chunk", Word::Chunk),
    (b"room", Word::Room),
    (b"reads", Word::Reads),
    (b"puts", Word::Puts),
    (b"last", Word::Last),
    (b"slot", Word::Slot),
    (b"breaks", Word::Breaks),
    (b"refusals", Word::Refusals),
    (b"notice", Word::Notice),
    (b"<", Word::Reply),
    (b"c", Word::Column),
    (b"r", Word::Fields),
    (b"connected", Word::Connected),
    (b"notarget", Word::NoTarget),
    (b"broken", Word::Broken),
    (b"rows", Word::Rows),
    (b"done", Word::Done),
    (b"refused", Word::Refused),
];

/// The word that stands there, if it is one of them.
pub fn word_of(text: &[u8]) -> Option<Word> {
    for (written, word) in WORDS {
        if written == text {
            return Some(word);
        }
    }
    None
}

// The place of the first `mark`, or the end.
fn place_of(line: &[u8], mark: u8) -> usize
    ensures { result ≤ length line.now }
{
    for (at, byte) in line.iter().enumerate() {
        if *byte == mark {
            return at;
        }
    }
    line.len()
}

/// What stands before the first `mark` and what stands behind it. Without one, that is the whole line and nothing.
pub fn cut(line: &[u8], mark: u8) -> (&[u8], &[u8]) {
    let (before, rest) = line.split_at(place_of(line, mark));
    match rest.split_first() {
        Some((_, behind)) => (before, behind),
        None => (before, rest),
    }
}

/// The number that a word is.
pub fn number(word: &[u8]) -> Option<u64> {
    let mut value: u64 = 0;
    for byte in word {
        if !byte.is_ascii_digit() {
            return None;
        }
        let digit = u64::from(byte.wrapping_sub(b'0'));
        value = value.checked_mul(10)?.checked_add(digit)?;
    }
    if word.is_empty() { None } else { Some(value) }
}

/// The numbers that stand in a line, with a blank between two.
pub fn numbers(alloc: Global, line: &[u8]) -> Result<Option<List<u64>>, OutOfMemory> {
    let mut all = List::new(alloc);
    for word in line.split(|b| *b == b' ') {
        match number(word) {
            Some(value) => all.push(value)?,
            None => return Ok(None),
        }
    }
    Ok(Some(all))
}

// The worth of a hexadecimal digit, with lower case letters.
fn digit(byte: u8) -> u8 {
    if byte.is_ascii_digit() {
        byte.wrapping_sub(b'0')
    } else {
        byte.wrapping_sub(b'a').wrapping_add(10) & 15
    }
}

/// A text whose bytes are themselves, or a backslash and two hexadecimal digits.
pub fn unescaped(alloc: Global, text: &[u8]) -> Result<Bytes, OutOfMemory> {
    let mut bytes = List::new(alloc);
    // How many digits of a byte are to come, and its worth so far.
    let mut digits = 0u8;
    let mut worth = 0u8;
    for byte in text {
        if digits > 0 {
            digits = digits.saturating_sub(1);
            worth = worth.wrapping_mul(16).wrapping_add(digit(*byte));
            if digits == 0 {
                bytes.push(worth)?;
            }
        } else if *byte == b'\\' {
            digits = 2;
            worth = 0;
        } else {
            bytes.push(*byte)?;
        }
    }
    Ok(bytes)
}

/// The first of the fields of a line, a text in quotes or `-`, and what stands behind it and its blank.
pub fn first_field(line: &[u8]) -> Option<(Option<&[u8]>, &[u8])> {
    let (first, rest) = line.split_first()?;
    match *first {
        b'-' => Some((None, cut(rest, b' ').1)),
        b'"' => {
            let (text, behind) = cut(rest, b'"');
            Some((Some(text), cut(behind, b' ').1))
        }
        _ => None,
    }
}

/// The one text in quotes that a line is.
pub fn quoted(alloc: Global, line: &[u8]) -> Result<Option<Bytes>, OutOfMemory> {
    match first_field(line) {
        Some((Some(text), _)) => Ok(Some(unescaped(alloc, text)?)),
        _ => Ok(None),
    }
}
