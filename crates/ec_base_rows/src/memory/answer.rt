//! Answers, and how they are shown.

use crate::answers::Wrong;
use ec_base::{Bytes, OutOfMemory, Trap};
use ec_bytes::Ptr;
use ec_ctypes::Shape;
use ec_memory::{MakeStop, Value};
use itoa::Buffer;
use std::alloc::Global;

/// What a row is answered with.
#[derive(Drop)]
pub enum Answer {
    Done,
    /// There is none.
    Absent,
    Word(&'static str),
    Number(i128),
    Pointer(Ptr),
    Bytes(Bytes),
    Shape(Shape),
    /// An offset, and the shape of what stands there.
    Place(u64, Shape),
}

// The name of a trap.
fn trap_name(trap: Trap) -> &'static str {
    match trap {
        Trap::Null => "Null",
        Trap::Dead => "Dead",
        Trap::Outside => "Outside",
        Trap::Unset => "Unset",
        Trap::Spent => "Spent",
        Trap::Overflow | Trap::Shift | Trap::Zero | Trap::NoValue | Trap::BadLen =>
            "no trap of memory",
    }
}

/// The answer of an access that gives nothing.
pub fn done(outcome: Result<(), Trap>) -> Answer {
    match outcome {
        Ok(()) => Answer::Done,
        Err(trap) => Answer::Word(trap_name(trap)),
    }
}

/// The answer of an access that gives bytes.
pub fn bytes(alloc: Global, outcome: Result<&[u8], Trap>) -> Result<Answer, Wrong> {
    match outcome {
        Ok(bytes) => Ok(Answer::Bytes(Bytes::from_slice(alloc, bytes)?)),
        Err(trap) => Ok(Answer::Word(trap_name(trap))),
    }
}

/// The answer of an access that gives a value.
pub fn value(outcome: Result<Value, Trap>) -> Answer {
    match outcome {
        Ok(Value::Int(number)) => Answer::Number(number),
        Ok(Value::Ptr(ptr)) => Answer::Pointer(ptr),
        Err(trap) => Answer::Word(trap_name(trap)),
    }
}

/// The answer of a move.
pub fn pointer(outcome: Result<Ptr, Trap>) -> Answer {
    match outcome {
        Ok(ptr) => Answer::Pointer(ptr),
        Err(trap) => Answer::Word(trap_name(trap)),
    }
}

/// The answer of a count of elements.
pub fn count(outcome: Result<i64, Trap>) -> Answer {
    match outcome {
        Ok(number) => Answer::Number(i128::from(number)),
        Err(trap) => Answer::Word(trap_name(trap)),
    }
}

/// The answer of an object that is made.
pub fn made(outcome: Result<Ptr, MakeStop>) -> Result<Answer, Wrong> {
    match outcome {
        Ok(ptr) => Ok(Answer::Pointer(ptr)),
        Err(MakeStop::Spent) => Ok(Answer::Word("Spent")),
        Err(MakeStop::OutOfMemory) => Err(Wrong::OutOfMemory),
    }
}

// Shows a number.
fn show_number(shown: &mut Bytes, number: i128) -> Result<(), OutOfMemory> {
    shown.extend_from_slice(Buffer::new().format(number).as_bytes())
}

// Shows bytes as numbers with commas between them, and none as `-`.
fn show_bytes(shown: &mut Bytes, bytes: &[u8]) -> Result<(), OutOfMemory> {
    if bytes.is_empty() {
        return shown.push(b'-');
    }
    let mut comma: &[u8] = b"";
    for byte in bytes {
        shown.extend_from_slice(comma)?;
        show_number(shown, i128::from(*byte))?;
        comma = b",";
    }
    Ok(())
}

// Shows a size and an alignment.
fn show_shape(shown: &mut Bytes, shape: Shape) -> Result<(), OutOfMemory> {
    show_number(shown, i128::from(shape.size))?;
    shown.push(b'/')?;
    show_number(shown, i128::from(shape.align))
}

impl Answer {
    /// Shows the answer.
    pub fn show(&self, shown: &mut Bytes) -> Result<(), OutOfMemory> {
        match self {
            Answer::Done => shown.extend_from_slice(b"done"),
            Answer::Absent => shown.extend_from_slice(b"none"),
            Answer::Word(word) => shown.extend_from_slice(word.as_bytes()),
            Answer::Number(number) => show_number(shown, *number),
            Answer::Pointer(ptr) => {
                show_number(shown, i128::from(ptr.0 >> 32))?;
                shown.push(b':')?;
                show_number(shown, i128::from(ptr.0 & 0xffff_ffff))
            }
            Answer::Bytes(bytes) => show_bytes(shown, bytes.as_slice()),
            Answer::Shape(shape) => show_shape(shown, *shape),
            Answer::Place(offset, shape) => {
                show_number(shown, i128::from(*offset))?;
                shown.push(b' ')?;
                show_shape(shown, *shape)
            }
        }
    }
}
