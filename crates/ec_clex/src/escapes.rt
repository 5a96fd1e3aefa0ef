//! The bytes that quoted text stands for (ISO/IEC 9899:1999, 6.4.4.4 and 6.4.5).
ghost use Rattle.std.specs.Prelude.{◌≡◌, ◌+◌, ◌≤◌, ◌<◌, length, drop, option_map, IfSome, IfOk};
ghost use Rattle.ec_language.specs.Constants as constants;
ghost use Rattle.ec_clex.specs.Quotes.{escaped_view, first_of};

use crate::numbers::{digits_end, digits_value, is_digit_of};
use ec_base::{Bytes, List, OutOfMemory};
use std::alloc::Global;

/// A byte, and the index behind what stands for it.
#[derive(Clone, Copy)]
pub struct Escaped {
    pub byte: u8,
    pub end: usize,
}

/// The byte that a letter or a mark behind a backslash stands for.
pub fn simple_escape(byte: u8) -> Option<u8>
    ensures { result ≡ constants.simple_escape byte }
{
    match byte {
        b'n' => Some(10),
        b't' => Some(9),
        b'r' => Some(13),
        b'a' => Some(7),
        b'b' => Some(8),
        b'f' => Some(12),
        b'v' => Some(11),
        b'\\' | b'\'' | b'"' | b'?' => Some(byte),
        _ => None,
    }
}

/// The byte of the digits, one to so many, that stand from the index on.
pub fn numeric_escape(base: u8, most: usize, text: &[u8], from: usize) -> Option<Escaped>
    requires based { 1 ≤ base }
    requires inside { from ≤ length text.now }
    ensures is { option_map (escaped_view text.now) result
        ≡ constants.numeric_escape base most (drop from text.now) }
    ensures within { IfSome result (λ escaped. (from ≤ escaped.end)
        × (escaped.end ≤ length text.now)) }
{
    let end = digits_end(base, most, text, from);
    if end == from {
        return None;
    }
    match digits_value(base, &text[from..end]) {
        Some(number) => {
            if number <= 255 {
                Some(Escaped {
                    byte: number as u8,
                    end,
                })
            } else {
                None
            }
        }
        None => None,
    }
}

/// The byte of the escape whose backslash stands before the index.
pub fn escape(text: &[u8], from: usize) -> Option<Escaped>
    requires { from ≤ length text.now }
    ensures is { option_map (escaped_view text.now) result ≡ constants.escape (drop from text.now) }
    ensures within { IfSome result (λ escaped. (from ≤ escaped.end)
        × (escaped.end ≤ length text.now)) }
{
    if from == text.len() {
        return None;
    }
    let byte = text[from];
    if is_digit_of(8, byte) {
        return numeric_escape(8, 3, text, from);
    }
    if byte == b'x' {
        return numeric_escape(16, 2, text, from + 1);
    }
    match simple_escape(byte) {
        Some(byte) => Some(Escaped {
            byte,
            end: from + 1,
        }),
        None => None,
    }
}

/// The byte that stands at the index of quoted text.
pub fn first_byte(text: &[u8], at: usize) -> Option<Escaped>
    requires { at < length text.now }
    ensures is { option_map (escaped_view text.now) result ≡ first_of (drop at text.now) }
    ensures within { IfSome result (λ escaped. (at + 1 ≤ escaped.end)
        × (escaped.end ≤ length text.now)) }
{
    let byte = text[at];
    if byte == b'\\' {
        escape(text, at + 1)
    } else {
        Some(Escaped { byte, end: at + 1 })
    }
}

/// The bytes that quoted text stands for, or none where an escape is wrong.
pub fn unescaped(alloc: Global, text: &[u8]) -> Result<Option<Bytes>, OutOfMemory>
    ensures { IfOk result (λ bytes. bytes ≡ constants.unescaped text.now) }
{
    let mut bytes = List::new(alloc);
    let mut at = 0;
    while at < text.len() {
        match first_byte(text, at) {
            Some(escaped) => {
                bytes.push(escaped.byte)?;
                at = escaped.end;
            }
            None => return Ok(None),
        }
    }
    Ok(Some(bytes))
}

/// The value of a byte as a character. Characters are signed.
fn signed(byte: u8) -> i8
    ensures { result ≡ constants.signed_byte byte }
{
    if byte < 128 {
        byte as i8
    } else {
        (i16::from(byte) - 256) as i8
    }
}

/// The value of quoted text that stands for one byte.
pub fn character(text: &[u8]) -> Option<i8>
    ensures { result ≡ constants.only_byte (constants.unescaped text.now) }
{
    if text.is_empty() {
        return None;
    }
    match first_byte(text, 0) {
        Some(escaped) => {
            if escaped.end == text.len() {
                Some(signed(escaped.byte))
            } else {
                None
            }
        }
        None => None,
    }
}
