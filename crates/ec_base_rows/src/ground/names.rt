//! Names, and what is printed of faults, limits and traps.

use crate::ground::words::{cut, end_line, put_number, put_truth, put_word};
use ec_base::{Bytes, FaultKind, LimitKind, Line, Name, OutOfMemory, Stop, Trap};
use std::alloc::Global;

/// All faults.
const FAULTS: [FaultKind; 32] = [
    FaultKind::F1,
    FaultKind::F2,
    FaultKind::F3,
    FaultKind::F4,
    FaultKind::F5,
    FaultKind::F6,
    FaultKind::F7,
    FaultKind::F8,
    FaultKind::F9,
    FaultKind::F10,
    FaultKind::F11,
    FaultKind::F12,
    FaultKind::F13,
    FaultKind::F14,
    FaultKind::F15,
    FaultKind::F16,
    FaultKind::F17,
    FaultKind::F18,
    FaultKind::F19,
    FaultKind::F20,
    FaultKind::F21,
    FaultKind::F22,
    FaultKind::F23,
    FaultKind::F24,
    FaultKind::F25,
    FaultKind::F26,
    FaultKind::F27,
    FaultKind::F28,
    FaultKind::F29,
    FaultKind::F30,
    FaultKind::F31,
    FaultKind::F32,
];

/// All limits.
const LIMITS: [LimitKind; 11] = [
    LimitKind::L1,
    LimitKind::L2,
    LimitKind::L3,
    LimitKind::L4,
    LimitKind::L5,
    LimitKind::L6,
    LimitKind::L7,
    LimitKind::L8,
    LimitKind::L9,
    LimitKind::L10,
    LimitKind::L11,
];

/// All traps.
const TRAPS: [Trap; 10] = [
    Trap::Outside,
    Trap::Dead,
    Trap::Null,
    Trap::Unset,
    Trap::Overflow,
    Trap::Shift,
    Trap::Zero,
    Trap::NoValue,
    Trap::BadLen,
    Trap::Spent,
];

/// Prints a name of the first word, its length, and whether it is empty, equal to its copy, and equal to that of the second.
pub fn name(alloc: Global, words: &str, out: &mut Bytes) -> Result<(), OutOfMemory> {
    let (word, other) = cut(words);
    let name = Name::from_slice(alloc, word.as_bytes())?;
    put_word(out, name.as_slice())?;
    put_number(out, name.len() as u64)?;
    put_truth(out, name.is_empty())?;
    let copy = name.clone()?;
    put_truth(out, copy == name)?;
    let other = Name::from_slice(alloc, other.as_bytes())?;
    put_truth(out, name == other)?;
    put_truth(out, name == Name::new())?;
    end_line(out)
}

// Prints a text on a line of its own.
fn put_text(out: &mut Bytes, text: &str) -> Result<(), OutOfMemory> {
    put_word(out, text.as_bytes())?;
    end_line(out)
}

/// Prints the names of all faults, limits and traps, and how reasons to stop compare.
pub fn names(out: &mut Bytes) -> Result<(), OutOfMemory> {
    for fault in FAULTS {
        put_text(out, fault.text())?;
    }
    for limit in LIMITS {
        put_text(out, limit.text())?;
    }
    for trap in TRAPS {
        put_text(out, trap.text())?;
    }
    let refused = Stop::Refused(FaultKind::F4, Line(3));
    put_truth(out, Stop::from(OutOfMemory) == Stop::OutOfMemory)?;
    put_truth(out, refused == Stop::Refused(FaultKind::F4, Line(3)))?;
    put_truth(out, refused == Stop::Refused(FaultKind::F4, Line(4)))?;
    end_line(out)
}
