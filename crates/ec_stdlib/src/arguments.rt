//! The arguments of a call, one after the other.

ghost use Rattle.std.specs.Prelude.{◌≡◌, ℕ, map, ℤ, IfSome};
ghost use Rattle.ec_meaning_defs.specs.functions.Functions.{Effect, byte_of, taking_address, taking_addresses, taking_byte, taking_nothing, taking_number, taking_sizes};
ghost use Rattle.ec_values.specs.Words.{HasWord, word_view};
ghost use Rattle.ec_printf.specs.formats.Known.{amount_view};
ghost use Rattle.ec_stdlib.specs.Parts.{address_taken, amount_taken, number_taken};
ghost use Rattle.ec_stdlib.specs.Taken.{given_filling, given_nothing, given_number, given_pair, given_pointer, given_sizes, number_view, pointer_view};

use ec_bytes::Ptr;
use ec_printf::formats::Amount;
use ec_values::Word;

/// A number, and the arguments behind it.
#[derive(Clone, Copy, Debug)]
pub(crate) struct TakenNumber<'a> {
    pub(crate) number: i128,
    pub(crate) rest: &'a [Word],
}

/// A pointer, and the arguments behind it.
#[derive(Clone, Copy, Debug)]
pub(crate) struct TakenPointer<'a> {
    pub(crate) ptr: Ptr,
    pub(crate) rest: &'a [Word],
}

/// Two pointers.
#[derive(Clone, Copy, Debug)]
pub(crate) struct Pair {
    pub(crate) first: Ptr,
    pub(crate) second: Ptr,
}

/// Two pointers and a count.
#[derive(Clone, Copy, Debug)]
pub(crate) struct Sizes {
    pub(crate) first: Ptr,
    pub(crate) second: Ptr,
    pub(crate) count: u64,
}

/// A pointer, a byte and a count.
#[derive(Clone, Copy, Debug)]
pub(crate) struct Filling {
    pub(crate) ptr: Ptr,
    pub(crate) byte: u8,
    pub(crate) count: u64,
}

/// The number at the front of the arguments, if it is one.
pub(crate) fn take_number<'a>(arguments: &'a [Word]) -> Option<TakenNumber<'a>>
    ensures value { number_view result ≡ number_taken (map word_view arguments.now) }
    ensures bounds { IfSome result (λ taken. HasWord taken.number) }
{
    match arguments {
        [] => None,
        [first, rest @ ..] => match first {
            Word::Address(_) => None,
            Word::Signed(number) => Some(TakenNumber {
                number: *number as i128,
                rest,
            }),
            Word::Unsigned(number) => Some(TakenNumber {
                number: *number as i128,
                rest,
            }),
        },
    }
}

/// The pointer at the front of the arguments, if it is one.
pub(crate) fn take_pointer<'a>(arguments: &'a [Word]) -> Option<TakenPointer<'a>>
    ensures { pointer_view result ≡ address_taken (map word_view arguments.now) }
{
    match arguments {
        [] => None,
        [first, rest @ ..] => match first {
            Word::Address(ptr) => Some(TakenPointer { ptr: *ptr, rest }),
            Word::Signed(_) => None,
            Word::Unsigned(_) => None,
        },
    }
}

/// A width or a precision, with `otherwise` where there is none.
pub(crate) fn take_amount<'a>(
    amount: Amount,
    otherwise: i128,
    arguments: &'a [Word],
) -> Option<TakenNumber<'a>>
    requires { HasWord otherwise }
    ensures value { number_view result
        ≡ amount_taken (amount_view amount) otherwise (map word_view arguments.now) }
    ensures bounds { IfSome result (λ taken. HasWord taken.number) }
{
    match amount {
        Amount::Absent => Some(TakenNumber {
            number: otherwise,
            rest: arguments,
        }),
        Amount::Given(number) => Some(TakenNumber {
            number: number as i128,
            rest: arguments,
        }),
        Amount::FromArgument => take_number(arguments),
    }
}

/// No argument.
pub(crate) fn nothing(arguments: &[Word]) -> bool
    ensures { (effect : Effect) → taking_nothing effect (map word_view arguments.now)
        ≡ given_nothing result effect }
{
    arguments.is_empty()
}

/// One number.
pub(crate) fn one_number(arguments: &[Word]) -> Option<i128>
    ensures value { (k : ℤ → Effect) → taking_number k (map word_view arguments.now)
        ≡ given_number result k }
    ensures bounds { IfSome result HasWord }
{
    match take_number(arguments) {
        Some(taken) => {
            if taken.rest.is_empty() {
                Some(taken.number)
            } else {
                None
            }
        }
        None => None,
    }
}

/// One pointer.
pub(crate) fn one_pointer(arguments: &[Word]) -> Option<Ptr>
    ensures { (k : ℕ → Effect) → taking_address k (map word_view arguments.now)
        ≡ given_pointer result k }
{
    match take_pointer(arguments) {
        Some(taken) => {
            if taken.rest.is_empty() {
                Some(taken.ptr)
            } else {
                None
            }
        }
        None => None,
    }
}

/// Two pointers.
pub(crate) fn two_pointers(arguments: &[Word]) -> Option<Pair>
    ensures { (k : ℕ → ℕ → Effect) → taking_addresses k (map word_view arguments.now)
        ≡ given_pair result k }
{
    match take_pointer(arguments) {
        Some(first) => match one_pointer(first.rest) {
            Some(second) => Some(Pair {
                first: first.ptr,
                second,
            }),
            None => None,
        },
        None => None,
    }
}

/// Two pointers and a count.
pub(crate) fn pointers_and_count(arguments: &[Word]) -> Option<Sizes>
    ensures { (k : ℕ → ℕ → ℕ → Effect) → taking_sizes k (map word_view arguments.now)
        ≡ given_sizes result k }
{
    match take_pointer(arguments) {
        Some(first) => match take_pointer(first.rest) {
            Some(second) => match one_number(second.rest) {
                Some(count) => Some(Sizes {
                    first: first.ptr,
                    second: second.ptr,
                    count: count.unsigned_abs() as u64,
                }),
                None => None,
            },
            None => None,
        },
        None => None,
    }
}

/// A pointer, a byte and a count.
pub(crate) fn pointer_byte_and_count(arguments: &[Word]) -> Option<Filling>
    ensures { (k : ℕ → ℕ → ℕ → Effect) → taking_byte k (map word_view arguments.now)
        ≡ given_filling result k }
{
    match take_pointer(arguments) {
        Some(first) => match take_number(first.rest) {
            Some(byte) => match one_number(byte.rest) {
                Some(count) => Some(Filling {
                    ptr: first.ptr,
                    byte: byte_of(byte.number),
                    count: count.unsigned_abs() as u64,
                }),
                None => None,
            },
            None => None,
        },
        None => None,
    }
}

/// A number as an unsigned byte.
pub(crate) fn byte_of(number: i128) -> u8
    ensures { result ≡ byte_of number }
{
    number.rem_euclid(1 << 8) as u8
}
