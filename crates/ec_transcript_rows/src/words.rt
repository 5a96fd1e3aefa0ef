//! The words of a line.

use crate::wrong::Wrong;
use ec_base::{Bytes, List, Name};
use ec_link::Tx;
use std::alloc::Global;
use std::str::SplitWhitespace;

/// The words that are left of a line.
#[derive(Drop)]
pub struct Words<'a> {
    pub rest: SplitWhitespace<'a>,
}

// The worth of a hexadecimal digit.
fn worth(digit: u8) -> Option<u8> {
    match digit {
        b'0'..=b'9' => Some(digit.wrapping_sub(b'0')),
        b'a'..=b'f' => Some(digit.wrapping_sub(b'a').wrapping_add(10)),
        _ => None,
    }
}

// The byte of two hexadecimal digits.
fn byte_of(high: u8, low: u8) -> Option<u8> {
    let high = worth(high)?;
    let low = worth(low)?;
    Some(high.wrapping_mul(16).wrapping_add(low))
}

// What stands before a byte: nothing that takes it, a backslash, or one and a digit.
#[derive(Clone, Copy)]
enum Before {
    Nothing,
    Backslash,
    High(u8),
}

/// Bytes that are themselves, or a backslash and two hexadecimal digits.
pub fn unescaped(alloc: Global, text: &[u8]) -> Result<Bytes, Wrong> {
    let mut bytes = Bytes::new(alloc);
    let mut before = Before::Nothing;
    for byte in text {
        before = match before {
            Before::Nothing if *byte == b'\\' => Before::Backslash,
            Before::Nothing => {
                bytes.push(*byte)?;
                Before::Nothing
            }
            Before::Backslash => Before::High(*byte),
            Before::High(high) => {
                bytes.push(byte_of(high, *byte).ok_or(Wrong::Form)?)?;
                Before::Nothing
            }
        };
    }
    match before {
        Before::Nothing => Ok(bytes),
        Before::Backslash | Before::High(_) => Err(Wrong::Form),
    }
}

/// A field: `-` for none, or `=` and its bytes.
pub fn field(alloc: Global, word: &str) -> Result<Option<Bytes>, Wrong> {
    if word == "-" {
        return Ok(None);
    }
    let text = word.strip_prefix('=').ok_or(Wrong::Form)?;
    Ok(Some(unescaped(alloc, text.as_bytes())?))
}

/// A field that is there.
pub fn text(alloc: Global, word: &str) -> Result<Bytes, Wrong> {
    field(alloc, word)?.ok_or(Wrong::Form)
}

/// A field that is a name.
pub fn name(alloc: Global, word: &str) -> Result<Name, Wrong> {
    let text = text(alloc, word)?;
    Ok(Name::from_slice(alloc, text.as_slice())?)
}

impl<'a> Words<'a> {
    /// The words of a line.
    pub fn new(line: &'a str) -> Words<'a> {
        Words {
            rest: line.split_whitespace(),
        }
    }

    /// The next word.
    pub fn next(&mut self) -> Result<&'a str, Wrong> {
        self.rest.next().ok_or(Wrong::Form)
    }

    /// The next word as a field.
    pub fn field(&mut self, alloc: Global) -> Result<Option<Bytes>, Wrong> {
        field(alloc, self.next()?)
    }

    /// The next word as a field that is there.
    pub fn text(&mut self, alloc: Global) -> Result<Bytes, Wrong> {
        text(alloc, self.next()?)
    }

    /// The next word as a name.
    pub fn name(&mut self, alloc: Global) -> Result<Name, Wrong> {
        name(alloc, self.next()?)
    }

    /// The next word as the letter of a transaction's state.
    pub fn state(&mut self) -> Result<Tx, Wrong> {
        match self.next()? {
            "I" => Ok(Tx::Idle),
            "A" => Ok(Tx::Active),
            "F" => Ok(Tx::Failed),
            _ => Err(Wrong::Form),
        }
    }

    /// Whether `notice` is the next word, which is the last one.
    pub fn notice(&mut self) -> Result<bool, Wrong> {
        match self.rest.next() {
            None => Ok(false),
            Some("notice") => Ok(true),
            Some(_) => Err(Wrong::Form),
        }
    }

    /// The words that are left, as fields.
    pub fn fields(&mut self, alloc: Global) -> Result<List<Option<Bytes>>, Wrong> {
        let mut fields = List::new(alloc);
        for word in self.rest.by_ref() {
            fields.push(field(alloc, word)?)?;
        }
        Ok(fields)
    }
}
