//! Directives.

ghost use Rattle.std.specs.Prelude.{◌≡◌, ◌≤◌, drop, length, option_map};
ghost use Rattle.ec_meaning_defs.specs.functions.Formats as of;
ghost use Rattle.ec_printf.specs.formats.Known.{amount_view, field_view};
ghost use Rattle.ec_printf.specs.Readings.{directive_view, full_directive, measured_view, wide_view};

use crate::amounts::{Measured, amount_at, is_width, precision_at};
use crate::formats::{Amount, Field};
use crate::letters::{Meaning, Wide, lettered, wide_at};

/// A directive, and what stands behind it.
#[derive(Clone, Copy)]
pub(crate) struct Directive<'a> {
    pub meaning: Meaning,
    pub rest: &'a [u8],
}

fn is_flag(byte: u8) -> bool
    ensures { result ≡ of.is_flag byte }
{
    byte == b'-' || byte == b'0'
}

/// How many flags come first.
fn flags(text: &[u8]) -> usize
    ensures count { result ≡ length (of.front_while of.is_flag text.now) }
    ensures few { result ≤ length text.now }
{
    let mut count = 0;
    for byte in text {
        if !is_flag(*byte) {
            return count;
        }
        count += 1;
    }
    count
}

/// Whether this byte is among others.
fn has(byte: u8, bytes: &[u8]) -> bool
    ensures { result ≡ of.has byte bytes.now }
{
    for other in bytes {
        if byte == *other {
            return true;
        }
    }
    false
}

/// The flags of a field, with its width.
fn field_of(flags: &[u8], width: Amount) -> Field
    ensures { field_view result ≡ of.field_of flags.now (amount_view width) }
{
    Field {
        minus: has(b'-', flags),
        zeros: has(b'0', flags),
        width,
    }
}

/// A directive from its letter on.
fn with_letter<'a>(field: Field, precision: Amount, wide: Wide<'a>) -> Option<Directive<'a>>
    ensures { option_map directive_view result
        ≡ of.with_letter (field_view field) (amount_view precision) (wide_view wide.entry) }
{
    match wide.rest {
        [] => None,
        [letter, rest @ ..] => match lettered(field, precision, wide.is_wide, *letter) {
            Some(meaning) => Some(Directive { meaning, rest }),
            None => None,
        },
    }
}

/// A directive from its width on.
fn with_width<'a>(flags: &[u8], width: Measured<'a>) -> Option<Directive<'a>>
    ensures { option_map directive_view result
        ≡ of.with_width flags.now (measured_view width.entry) }
{
    if !is_width(width.amount) {
        return None;
    }
    match precision_at(width.rest) {
        Some(precision) => with_letter(
            field_of(flags, width.amount),
            precision.amount,
            wide_at(precision.rest),
        ),
        None => None,
    }
}

/// The flags at the front of a text.
fn front_flags(text: &[u8]) -> &[u8]
    ensures { result.now ≡ of.front_while of.is_flag text.now }
{
    &text[..flags(text)]
}

/// What stands behind the flags at the front of a text.
fn behind_flags(text: &[u8]) -> &[u8]
    ensures { result.now ≡ drop (length (of.front_while of.is_flag text.now)) text.now }
{
    &text[flags(text)..]
}

/// A directive with its flags, but for `%%`.
fn full_directive(text: &[u8]) -> Option<Directive<'_>>
    ensures { option_map directive_view result ≡ full_directive text.now }
{
    let width = amount_at(behind_flags(text));
    with_width(front_flags(text), width)
}

/// The directive behind a `%`.
pub(crate) fn directive_at(text: &[u8]) -> Option<Directive<'_>>
    ensures { option_map directive_view result ≡ of.directive_at text.now }
{
    match text {
        [] => None,
        [b'%', rest @ ..] => Some(Directive {
            meaning: Meaning::Percent,
            rest,
        }),
        _ => full_directive(text),
    }
}
