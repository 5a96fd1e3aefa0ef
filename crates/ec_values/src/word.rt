//! Values in machine words.

ghost use Rattle.std.specs.Prelude.{◌≡◌, not};
ghost use Rattle.ec_memory_defs.specs.Memory.{number, address, number_of};
ghost use Rattle.ec_meaning_defs.specs.resolved.Operations.{is_true, truth};
ghost use Rattle.ec_values.specs.Words.{word_view, HasWord};

use ec_base::Trap;
use ec_bytes::Ptr;

/// A value of a scalar type of C (ISO/IEC 9899:1999, 6.2.5), as a machine holds it.
#[derive(Clone, Copy, Debug, PartialEq, Eq)]
pub enum Word {
    /// A number that `long` has.
    Signed(i64),
    /// A number that `unsigned long` has.
    Unsigned(u64),
    /// A pointer.
    Address(Ptr),
}

/// Why there is no value.
#[derive(Clone, Copy, Debug, PartialEq, Eq)]
pub enum Stop {
    Trap(Trap),
    /// The operands are not of the types that the operation is for. It never comes in a program without a fault.
    Misfit,
}

impl Word {
    /// The number of the value. A pointer is read as a number.
    #[inline(always)]
    pub fn number(self) -> i128
        ensures value { result ≡ number_of (word_view self) }
        ensures bounds { HasWord result }
    {
        match self {
            Word::Signed(number) => number as i128,
            Word::Unsigned(number) => number as i128,
            Word::Address(ptr) => ptr.0 as i128,
        }
    }

    /// The value of a number that `long` or `unsigned long` has.
    #[inline(always)]
    pub fn of_number(amount: i128) -> Word
        requires { HasWord amount }
        ensures { word_view result ≡ number amount }
    {
        if amount <= i64::MAX as i128 {
            Word::Signed(amount as i64)
        } else {
            Word::Unsigned(amount as u64)
        }
    }

    /// Whether the value counts as true.
    #[inline(always)]
    pub fn is_true(self) -> bool
        ensures { result ≡ is_true (word_view self) }
    {
        match self {
            Word::Signed(number) => number != 0,
            Word::Unsigned(number) => number != 0,
            Word::Address(ptr) => ptr.0 != 0,
        }
    }

    /// 1 or 0.
    #[inline(always)]
    pub fn truth(holds: bool) -> Word
        ensures { word_view result ≡ truth holds }
    {
        Word::Signed(holds as i64)
    }
}
