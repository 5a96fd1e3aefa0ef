//! Values that are found on the spot.

ghost use Rattle.std.specs.Prelude.{◌≡◌, Some, None};
ghost use Rattle.ec_machine.specs.Found.{found_view};

use crate::frame::Focus;
use crate::stop::Stop;
use ec_bytes::Ptr;
use ec_values::Word;

/// The value of an expression, where it was found on the spot.
#[derive(Clone, Copy)]
pub(crate) enum Found {
    Signed(i64),
    Unsigned(u64),
    Address(Ptr),
    /// Frames wait for it, or the run stopped.
    Waits,
}

impl Found {
    /// A value.
    #[inline(always)]
    pub(crate) fn value(word: Word) -> Found
        ensures { found_view result ≡ Some word }
    {
        match word {
            Word::Signed(number) => Found::Signed(number),
            Word::Unsigned(number) => Found::Unsigned(number),
            Word::Address(ptr) => Found::Address(ptr),
        }
    }

    /// The value, if there is one.
    #[inline(always)]
    pub(crate) fn get(self) -> Option<Word>
        ensures { result ≡ found_view self }
    {
        match self {
            Found::Signed(number) => Some(Word::Signed(number)),
            Found::Unsigned(number) => Some(Word::Unsigned(number)),
            Found::Address(ptr) => Some(Word::Address(ptr)),
            Found::Waits => None,
        }
    }
}

/// There is no value yet, and the run goes on so.
#[inline(always)]
pub(crate) fn waits<'p>(left: &mut Result<Focus<'p>, Stop>, so: Result<Focus<'p>, Stop>) -> Found
    ensures none { found_view result ≡ None }
    ensures left { left.new ≡ so.entry }
{
    *left = so;
    Found::Waits
}
