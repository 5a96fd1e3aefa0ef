//! Answers, and how they are shown.

use crate::answers::Wrong;
use ec_base::{Bytes, Trap};
use ec_convert::ConvStop;
use itoa::Buffer;

/// Shows a number.
pub fn show_number(shown: &mut Bytes, number: i64) -> Result<(), Wrong> {
    shown.extend_from_slice(Buffer::new().format(number).as_bytes())?;
    Ok(())
}

// A hexadecimal digit.
fn digit(value: u8) -> u8 {
    match value {
        0 => b'0',
        1 => b'1',
        2 => b'2',
        3 => b'3',
        4 => b'4',
        5 => b'5',
        6 => b'6',
        7 => b'7',
        8 => b'8',
        9 => b'9',
        10 => b'a',
        11 => b'b',
        12 => b'c',
        13 => b'd',
        14 => b'e',
        _ => b'f',
    }
}

/// Shows a byte as two hexadecimal digits.
pub fn show_byte(shown: &mut Bytes, byte: u8) -> Result<(), Wrong> {
    shown.push(digit(byte >> 4))?;
    shown.push(digit(byte & 15))?;
    Ok(())
}

/// Shows bytes in hexadecimal digits, with an `x` before them.
pub fn show_bytes(shown: &mut Bytes, bytes: &[u8]) -> Result<(), Wrong> {
    shown.push(b'x')?;
    for byte in bytes {
        show_byte(shown, *byte)?;
    }
    Ok(())
}

/// Shows the name of a trap.
pub fn show_trap(shown: &mut Bytes, trap: Trap) -> Result<(), Wrong> {
    let name: &[u8] = match trap {
        Trap::Null => b"trap Null",
        Trap::Dead => b"trap Dead",
        Trap::Outside => b"trap Outside",
        Trap::Unset => b"trap Unset",
        Trap::BadLen => b"trap BadLen",
        Trap::Spent | Trap::Overflow | Trap::Shift | Trap::Zero | Trap::NoValue => b"another trap",
    };
    shown.extend_from_slice(name)?;
    Ok(())
}

/// Shows why a value did not pass.
pub fn show_stop(shown: &mut Bytes, stop: ConvStop) -> Result<(), Wrong> {
    match stop {
        ConvStop::Trapped(trap) => show_trap(shown, trap),
        ConvStop::Code(code) => {
            shown.extend_from_slice(b"code ")?;
            show_number(shown, code)
        }
        ConvStop::OutOfMemory => Err(Wrong::OutOfMemory),
    }
}
