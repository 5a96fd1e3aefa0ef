//! Where an expression begins, and what is done from there.

use ec_base::Bytes;
use ec_ctypes::Arith;
use ec_memory_defs::Kind;
use ec_values::{Operation, Word};

/// Where an expression begins.
#[derive(Clone, Copy, Debug)]
pub enum Leaf {
    /// The object of this number: a global, a string literal or `sqlca`.
    Object(u32),
    /// The object of the function that stands at this place among those in scope, parameters first.
    Slot(u32),
    Constant(Word),
    /// The value of the `int` that stands at this place (6.3.2.1).
    IntValue(u32),
    /// The value of the `long` that stands at this place.
    LongValue(u32),
    /// What stands for an expression with a fault.
    Faulty,
}

/// A step that takes the value so far.
#[derive(Debug, Drop)]
pub enum Unary {
    /// A member, by its offset (ISO/IEC 9899:1999, 6.5.2.3).
    Member(u64),
    /// The value at a place (6.3.2.1).
    Load(Kind),
    /// A struct as a value, by its size: an access to all of it.
    Whole(u64),
    /// Bytes at a place, as the initializer of a char array puts them (6.7.8).
    Put(Bytes),
    /// From one type to another (6.3).
    Convert(Kind, Kind),
    /// `-` (6.5.3.3)
    Negate(Arith),
    /// `~` (6.5.3.3)
    Flip(Arith),
    /// `!` (6.5.3.3)
    Not,
}

/// A step that takes the value so far and that of another expression.
#[derive(Clone, Copy, Debug)]
pub enum Binary {
    /// To a place, of a value (6.5.16).
    Store(Kind),
    /// To a place, of so many cells of another.
    Copy(u64),
    /// `a op= b`, `++` and `--`.
    Update(Update),
    Operate(Operation),
    /// `&&` (6.5.13)
    Both,
    /// `||` (6.5.14)
    Either,
}

/// `a op= b`, `++` and `--` (ISO/IEC 9899:1999, 6.5.2.4, 6.5.3.1 and 6.5.16.2). The result is converted to the type of the
/// place.
#[derive(Clone, Copy, Debug)]
pub struct Update {
    /// The type of the place.
    pub kind: Kind,
    /// The type to which its old value is converted.
    pub widened: Kind,
    pub operation: Operation,
    /// Whether the old value is the answer.
    pub gives_old: bool,
}
