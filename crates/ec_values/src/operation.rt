//! What is done with two values.

use ec_ctypes::Arith;

/// An operator whose operands and result have one type (ISO/IEC 9899:1999, 6.5.5, 6.5.6 and 6.5.10 to 6.5.12).
#[derive(Clone, Copy, Debug, PartialEq, Eq)]
pub enum IntegerOperator {
    Plus,
    Minus,
    Times,
    Divided,
    Remainder,
    BitsAnd,
    BitsOr,
    BitsXor,
}

/// A comparison (6.5.8 and 6.5.9).
#[derive(Clone, Copy, Debug, PartialEq, Eq)]
pub enum Comparison {
    Equal,
    Unequal,
    Less,
    Greater,
    AtMost,
    AtLeast,
}

/// What an operator does, once its operands are converted. The sizes are those of the elements that a pointer leads to.
#[derive(Clone, Copy, Debug, PartialEq, Eq)]
pub enum Operation {
    /// Both operands and the result have this type.
    Integers(Arith, IntegerOperator),
    /// The type is that of the left operand and of the result (6.5.7).
    ShiftLeft(Arith),
    ShiftRight(Arith),
    /// Numbers of one type, or pointers by their numbers.
    Compare(Comparison),
    /// A pointer and a number (6.5.6).
    PointerPlus(u64),
    /// A number and a pointer.
    PlusPointer(u64),
    PointerMinus(u64),
    PointersApart(u64),
}
