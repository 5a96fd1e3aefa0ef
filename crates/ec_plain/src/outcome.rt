//! What an evaluation gives, in two machine words.

ghost use Rattle.std.specs.Prelude.{◌≡◌, Ok, Err};
ghost use Rattle.ec_values.specs.declared.word.Stop.TheVariants as stops;
ghost use Rattle.ec_plain.specs.Outcomes.{outcome_view};

use ec_base::Trap;
use ec_bytes::Ptr;
use ec_values::{Stop, Word};

/// A value, or why there is none: a `Result<Word, Stop>` that a function returns in registers.
#[derive(Clone, Copy, Debug)]
pub enum Outcome {
    /// A number that `long` has.
    Signed(i64),
    /// A number that `unsigned long` has.
    Unsigned(u64),
    /// A pointer.
    Address(Ptr),
    Outside,
    Dead,
    Null,
    Unset,
    Overflow,
    Shift,
    Zero,
    NoValue,
    BadLen,
    Spent,
    /// The operands are not of the types that the operation is for.
    Misfit,
}

impl Outcome {
    /// A value.
    #[inline(always)]
    pub fn value(word: Word) -> Outcome
        ensures { outcome_view result ≡ Ok word }
    {
        match word {
            Word::Signed(number) => Outcome::Signed(number),
            Word::Unsigned(number) => Outcome::Unsigned(number),
            Word::Address(ptr) => Outcome::Address(ptr),
        }
    }

    /// A trap.
    #[inline(always)]
    pub fn trapped(trap: Trap) -> Outcome
        ensures { outcome_view result ≡ Err (stops.Trap trap) }
    {
        match trap {
            Trap::Outside => Outcome::Outside,
            Trap::Dead => Outcome::Dead,
            Trap::Null => Outcome::Null,
            Trap::Unset => Outcome::Unset,
            Trap::Overflow => Outcome::Overflow,
            Trap::Shift => Outcome::Shift,
            Trap::Zero => Outcome::Zero,
            Trap::NoValue => Outcome::NoValue,
            Trap::BadLen => Outcome::BadLen,
            Trap::Spent => Outcome::Spent,
        }
    }

    /// Why there is no value.
    #[inline(always)]
    pub fn stopped(stop: Stop) -> Outcome
        ensures { outcome_view result ≡ Err stop }
    {
        match stop {
            Stop::Misfit => Outcome::Misfit,
            Stop::Trap(trap) => Outcome::trapped(trap),
        }
    }

    /// A value, or why there is none.
    #[inline(always)]
    pub fn of(found: Result<Word, Stop>) -> Outcome
        ensures { outcome_view result ≡ found }
    {
        match found {
            Ok(word) => Outcome::value(word),
            Err(stop) => Outcome::stopped(stop),
        }
    }

    /// The value, or why there is none.
    #[inline(always)]
    pub fn get(self) -> Result<Word, Stop>
        ensures { result ≡ outcome_view self }
    {
        match self {
            Outcome::Signed(number) => Ok(Word::Signed(number)),
            Outcome::Unsigned(number) => Ok(Word::Unsigned(number)),
            Outcome::Address(ptr) => Ok(Word::Address(ptr)),
            Outcome::Outside => Err(Stop::Trap(Trap::Outside)),
            Outcome::Dead => Err(Stop::Trap(Trap::Dead)),
            Outcome::Null => Err(Stop::Trap(Trap::Null)),
            Outcome::Unset => Err(Stop::Trap(Trap::Unset)),
            Outcome::Overflow => Err(Stop::Trap(Trap::Overflow)),
            Outcome::Shift => Err(Stop::Trap(Trap::Shift)),
            Outcome::Zero => Err(Stop::Trap(Trap::Zero)),
            Outcome::NoValue => Err(Stop::Trap(Trap::NoValue)),
            Outcome::BadLen => Err(Stop::Trap(Trap::BadLen)),
            Outcome::Spent => Err(Stop::Trap(Trap::Spent)),
            Outcome::Misfit => Err(Stop::Misfit),
        }
    }
}
