//! The words of a row.

use crate::answers::Wrong;
use ec_base::Bytes;
use ec_bytes::Ptr;
use ec_ctypes::Sym;
use std::alloc::Global;
use std::str::SplitWhitespace;

/// The words that are left of a row.
#[derive(Drop)]
pub struct Words<'a> {
    pub rest: SplitWhitespace<'a>,
}

/// The symbols of types.
const SYMBOLS: [(&str, Sym); 13] = [
    ("char", Sym::Char),
    ("unsigned_char", Sym::UnsignedChar),
    ("short", Sym::Short),
    ("unsigned_short", Sym::UnsignedShort),
    ("int", Sym::Int),
    ("unsigned_int", Sym::UnsignedInt),
    ("long", Sym::Long),
    ("unsigned_long", Sym::UnsignedLong),
    ("long_long", Sym::LongLong),
    ("unsigned_long_long", Sym::UnsignedLongLong),
    ("bool", Sym::Bool),
    ("varchar", Sym::Varchar),
    ("const", Sym::Const),
];

fn symbol_named(name: &str) -> Option<Sym> {
    for (known, symbol) in SYMBOLS {
        if known == name {
            return Some(symbol);
        }
    }
    None
}

// A pointer as it is written: `OBJECT:OFFSET`.
fn pointer_of(word: &str) -> Option<Ptr> {
    let (object, offset) = word.split_once(':')?;
    let object = object.parse::<u32>().ok()?;
    let offset = offset.parse::<u32>().ok()?;
    Some(Ptr(u64::from(object) << 32 | u64::from(offset)))
}

// The value of a hexadecimal digit.
fn digit_of(byte: u8) -> Option<u8> {
    match byte {
        b'0' => Some(0),
        b'1' => Some(1),
        b'2' => Some(2),
        b'3' => Some(3),
        b'4' => Some(4),
        b'5' => Some(5),
        b'6' => Some(6),
        b'7' => Some(7),
        b'8' => Some(8),
        b'9' => Some(9),
        b'a' => Some(10),
        b'b' => Some(11),
        b'c' => Some(12),
        b'd' => Some(13),
        b'e' => Some(14),
        b'f' => Some(15),
        _ => None,
    }
}

// The byte of two hexadecimal digits.
fn byte_of(high: u8, low: u8) -> Option<u8> {
    let high = digit_of(high)?;
    let low = digit_of(low)?;
    Some(high << 4 | low)
}

// The bytes of hexadecimal digits.
fn bytes_of(alloc: Global, digits: &[u8]) -> Result<Bytes, Wrong> {
    let mut bytes = Bytes::new(alloc);
    for pair in digits.chunks(2) {
        let [high, low] = pair else {
            return Err(Wrong::Form);
        };
        bytes.push(byte_of(*high, *low).ok_or(Wrong::Form)?)?;
    }
    Ok(bytes)
}

impl<'a> Words<'a> {
    /// The words of a row.
    pub fn new(row: &'a str) -> Words<'a> {
        Words {
            rest: row.split_whitespace(),
        }
    }

    /// The next word.
    pub fn next(&mut self) -> Result<&'a str, Wrong> {
        self.rest.next().ok_or(Wrong::Form)
    }

    /// The next word as a number.
    pub fn number(&mut self) -> Result<u64, Wrong> {
        self.next()?.parse::<u64>().map_err(|_| Wrong::Form)
    }

    /// The next word as a number with its sign.
    pub fn signed(&mut self) -> Result<i64, Wrong> {
        self.next()?.parse::<i64>().map_err(|_| Wrong::Form)
    }

    /// The next word as the number of an object or of a line.
    pub fn id(&mut self) -> Result<u32, Wrong> {
        self.next()?.parse::<u32>().map_err(|_| Wrong::Form)
    }

    /// The next word as a pointer.
    pub fn pointer(&mut self) -> Result<Ptr, Wrong> {
        pointer_of(self.next()?).ok_or(Wrong::Form)
    }

    /// The next word as a symbol.
    pub fn symbol(&mut self) -> Result<Sym, Wrong> {
        symbol_named(self.next()?).ok_or(Wrong::Form)
    }

    /// The next word as bytes: `x` and two hexadecimal digits for each. `-` is no text.
    pub fn bytes(&mut self, alloc: Global) -> Result<Option<Bytes>, Wrong> {
        let word = self.next()?;
        if word == "-" {
            return Ok(None);
        }
        let digits = word.strip_prefix('x').ok_or(Wrong::Form)?;
        Ok(Some(bytes_of(alloc, digits.as_bytes())?))
    }
}
