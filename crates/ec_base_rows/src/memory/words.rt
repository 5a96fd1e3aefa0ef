//! The words of a row.

use crate::answers::Wrong;
use ec_base::Bytes;
use ec_bytes::Ptr;
use ec_ctypes::Arith;
use ec_memory_defs::Kind;
use std::alloc::Global;
use std::str::SplitWhitespace;

/// The words that are left of a row.
#[derive(Drop)]
pub struct Words<'a> {
    pub rest: SplitWhitespace<'a>,
}

/// The scalar types, each with its integer type, which a pointer doesn't have.
const KINDS: [(&str, Kind, Option<Arith>); 12] = [
    ("bool", Kind::Bool, Some(Arith::Bool)),
    ("char", Kind::Char, Some(Arith::Char)),
    ("uchar", Kind::UChar, Some(Arith::UChar)),
    ("short", Kind::Short, Some(Arith::Short)),
    ("ushort", Kind::UShort, Some(Arith::UShort)),
    ("int", Kind::Int, Some(Arith::Int)),
    ("uint", Kind::UInt, Some(Arith::UInt)),
    ("long", Kind::Long, Some(Arith::Long)),
    ("ulong", Kind::ULong, Some(Arith::ULong)),
    ("llong", Kind::LLong, Some(Arith::LLong)),
    ("ullong", Kind::ULLong, Some(Arith::ULLong)),
    ("ptr", Kind::Ptr, None),
];

/// The integer type of this name.
pub fn arith_named(name: &str) -> Option<Arith> {
    for (known, _, arith) in KINDS {
        if known == name {
            return arith;
        }
    }
    None
}

// The scalar type of this name.
fn kind_named(name: &str) -> Option<Kind> {
    for (known, kind, _) in KINDS {
        if known == name {
            return Some(kind);
        }
    }
    None
}

// A pointer as it is written: `OBJECT:OFFSET`, or a number.
fn pointer_of(word: &str) -> Option<Ptr> {
    match word.split_once(':') {
        Some((object, offset)) => {
            let object = object.parse::<u32>().ok()?;
            let offset = offset.parse::<u32>().ok()?;
            Some(Ptr(u64::from(object) << 32 | u64::from(offset)))
        }
        None => Some(Ptr(word.parse::<u64>().ok()?)),
    }
}

impl<'a> Words<'a> {
    /// The words of a row.
    pub fn new(row: &'a str) -> Words<'a> {
        Words {
            rest: row.split_whitespace(),
        }
    }

    /// The next word.
    pub fn next(&mut self) -> Result<&'a str, Wrong> {
        self.rest.next().ok_or(Wrong::Form)
    }

    /// The next word as a number.
    pub fn number(&mut self) -> Result<u64, Wrong> {
        self.next()?.parse::<u64>().map_err(|_| Wrong::Form)
    }

    /// The next word as a number of at most 64 bits with its sign.
    pub fn signed(&mut self) -> Result<i64, Wrong> {
        self.next()?.parse::<i64>().map_err(|_| Wrong::Form)
    }

    /// The next word as a number of at most 128 bits with its sign.
    pub fn wide(&mut self) -> Result<i128, Wrong> {
        self.next()?.parse::<i128>().map_err(|_| Wrong::Form)
    }

    /// The next word as a place in a region.
    pub fn place(&mut self) -> Result<usize, Wrong> {
        self.next()?.parse::<usize>().map_err(|_| Wrong::Form)
    }

    /// The next word as the number of a struct or an object.
    pub fn id(&mut self) -> Result<u32, Wrong> {
        self.next()?.parse::<u32>().map_err(|_| Wrong::Form)
    }

    /// The next word as a byte.
    pub fn byte(&mut self) -> Result<u8, Wrong> {
        self.next()?.parse::<u8>().map_err(|_| Wrong::Form)
    }

    /// The next word as a pointer.
    pub fn pointer(&mut self) -> Result<Ptr, Wrong> {
        pointer_of(self.next()?).ok_or(Wrong::Form)
    }

    /// The next word as a scalar type.
    pub fn kind(&mut self) -> Result<Kind, Wrong> {
        kind_named(self.next()?).ok_or(Wrong::Form)
    }

    /// The next word as bytes: numbers with commas between them.
    pub fn bytes(&mut self, alloc: Global) -> Result<Bytes, Wrong> {
        let mut bytes = Bytes::new(alloc);
        for number in self.next()?.split(',') {
            match number.parse::<u8>() {
                Ok(byte) => bytes.push(byte)?,
                Err(_) => return Err(Wrong::Form),
            }
        }
        Ok(bytes)
    }
}
