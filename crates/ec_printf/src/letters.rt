//! The letters at the end of a directive.

ghost use Rattle.std.specs.Prelude.{◌≡◌, option_map};
ghost use Rattle.ec_meaning_defs.specs.functions.Formats as of;
ghost use Rattle.ec_printf.specs.formats.Known.{amount_view, field_view, style_view};
ghost use Rattle.ec_printf.specs.Readings.{meaning_view, wide_view};

use crate::amounts::is_absent;
use crate::formats::{Amount, Field, Style};

/// What a directive stands for.
#[derive(Clone, Copy, Debug)]
pub(crate) enum Meaning {
    /// A `%` that stands for itself.
    Percent,
    /// An integer: whether it has `l` or `ll`, and how it is written.
    Integer(Field, bool, Style),
    Character(Field),
    /// A text, with its precision.
    Text(Field, Amount),
}

/// Whether `l` or `ll` comes first, and what stands behind it.
#[derive(Clone, Copy)]
pub(crate) struct Wide<'a> {
    pub is_wide: bool,
    pub rest: &'a [u8],
}

/// `l` or `ll` at the front of a text.
pub(crate) fn wide_at(text: &[u8]) -> Wide<'_>
    ensures { wide_view result ≡ of.wide_at text.now }
{
    match text {
        [b'l', b'l', rest @ ..] => Wide {
            is_wide: true,
            rest,
        },
        [b'l', rest @ ..] => Wide {
            is_wide: true,
            rest,
        },
        _ => Wide {
            is_wide: false,
            rest: text,
        },
    }
}

/// How `d`, `i`, `u`, `x`, `X` and `o` write a number.
fn style_of(letter: u8) -> Option<Style>
    ensures { option_map style_view result ≡ of.style_of letter }
{
    match letter {
        b'd' | b'i' => Some(Style::SignedDecimal),
        b'u' => Some(Style::UnsignedDecimal),
        b'x' => Some(Style::Hexadecimal),
        b'X' => Some(Style::CapitalHexadecimal),
        b'o' => Some(Style::Octal),
        _ => None,
    }
}

/// `c` and `s`. A precision stands at `s` alone.
fn text_directive(field: Field, precision: Amount, letter: u8) -> Option<Meaning>
    ensures { option_map meaning_view result
        ≡ of.text_directive (field_view field) (amount_view precision) letter }
{
    if letter == b's' {
        Some(Meaning::Text(field, precision))
    } else if letter == b'c' && is_absent(precision) {
        Some(Meaning::Character(field))
    } else {
        None
    }
}

/// A directive with the letter at its end. A precision stands at `s` alone, and `l` at an integer alone.
pub(crate) fn lettered(field: Field, precision: Amount, wide: bool, letter: u8) -> Option<Meaning>
    ensures { option_map meaning_view result
        ≡ of.lettered (field_view field) (amount_view precision) wide letter }
{
    match style_of(letter) {
        Some(style) => {
            if is_absent(precision) {
                Some(Meaning::Integer(field, wide, style))
            } else {
                None
            }
        }
        None => {
            if wide {
                None
            } else {
                text_directive(field, precision, letter)
            }
        }
    }
}
