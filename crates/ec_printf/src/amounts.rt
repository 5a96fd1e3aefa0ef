//! Widths and precisions.

ghost use Rattle.std.specs.Prelude.{◌≡◌, ◌≤◌, drop, length, option_map};
ghost use Rattle.ec_meaning_defs.specs.functions.Formats as of;
ghost use Rattle.ec_printf.specs.formats.Known.{amount_view};
ghost use Rattle.ec_printf.specs.Readings.{behind_dot, measured_view, plain_amount};

use crate::formats::Amount;

/// A width or a precision, and what stands behind it.
#[derive(Clone, Copy)]
pub(crate) struct Measured<'a> {
    pub amount: Amount,
    pub rest: &'a [u8],
}

fn is_digit(byte: u8) -> bool
    ensures { result ≡ of.is_digit byte }
{
    48 <= byte && byte <= 57
}

/// How many digits come first.
fn digits(text: &[u8]) -> usize
    ensures count { result ≡ length (of.front_while of.is_digit text.now) }
    ensures few { result ≤ length text.now }
{
    let mut count = 0;
    for byte in text {
        if !is_digit(*byte) {
            return count;
        }
        count += 1;
    }
    count
}

/// A number with one digit more behind it, or `u64::MAX` where it is more.
fn with_digit(number: u64, digit: u8) -> u64
    ensures { result ≡ of.with_digit number digit }
{
    let tens = number.saturating_mul(10);
    tens.saturating_add(u64::from(digit.saturating_sub(48)))
}

/// The number that digits make, or `u64::MAX` where it is more.
fn number(digits: &[u8]) -> u64
    ensures { result ≡ of.decimal_behind 0 digits.now }
{
    let mut number: u64 = 0;
    for digit in digits {
        number = with_digit(number, *digit);
    }
    number
}

/// The amount that digits say, if there are any.
fn digits_amount(digits: &[u8]) -> Amount
    ensures { amount_view result ≡ of.digits_amount digits.now }
{
    if digits.is_empty() {
        Amount::Absent
    } else {
        Amount::Given(number(digits))
    }
}

/// The digits at the front of a text.
fn front_digits(text: &[u8]) -> &[u8]
    ensures { result.now ≡ of.front_while of.is_digit text.now }
{
    &text[..digits(text)]
}

/// What stands behind the digits at the front of a text.
fn behind_digits(text: &[u8]) -> &[u8]
    ensures { result.now ≡ drop (length (of.front_while of.is_digit text.now)) text.now }
{
    &text[digits(text)..]
}

/// The digits at the front of a text, as an amount.
fn plain_amount(text: &[u8]) -> Measured<'_>
    ensures { measured_view result ≡ plain_amount text.now }
{
    Measured {
        amount: digits_amount(front_digits(text)),
        rest: behind_digits(text),
    }
}

/// A width or a precision at the front of a text.
pub(crate) fn amount_at(text: &[u8]) -> Measured<'_>
    ensures { measured_view result ≡ of.amount_at text.now }
{
    match text {
        [] => Measured {
            amount: Amount::Absent,
            rest: text,
        },
        [first, rest @ ..] => {
            if *first == b'*' {
                Measured {
                    amount: Amount::FromArgument,
                    rest,
                }
            } else {
                plain_amount(text)
            }
        }
    }
}

/// Whether an amount is a width: one in digits has at most three of them.
pub(crate) fn is_width(amount: Amount) -> bool
    ensures { result ≡ of.is_width (amount_view amount) }
{
    match amount {
        Amount::Absent => true,
        Amount::Given(number) => number <= 999,
        Amount::FromArgument => true,
    }
}

/// Whether there is no amount.
pub(crate) fn is_absent(amount: Amount) -> bool
    ensures { result ≡ of.is_absent (amount_view amount) }
{
    matches!(amount, Amount::Absent)
}

/// A precision at the front of a text, which is a dot and then digits or `*`; `None` where nothing stands behind the dot.
pub(crate) fn precision_at(text: &[u8]) -> Option<Measured<'_>>
    ensures { option_map measured_view result ≡ of.precision_at text.now }
{
    match text {
        [] => Some(Measured {
            amount: Amount::Absent,
            rest: text,
        }),
        [first, rest @ ..] => {
            if *first == b'.' {
                behind_dot(amount_at(rest))
            } else {
                Some(Measured {
                    amount: Amount::Absent,
                    rest: text,
                })
            }
        }
    }
}

/// What stands behind a dot, if it is an amount.
fn behind_dot(found: Measured<'_>) -> Option<Measured<'_>>
    ensures { option_map measured_view result ≡ behind_dot (measured_view found.entry) }
{
    match found.amount {
        Amount::Absent => None,
        Amount::Given(_) => Some(found),
        Amount::FromArgument => Some(found),
    }
}
