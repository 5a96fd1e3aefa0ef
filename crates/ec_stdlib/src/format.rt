//! What `printf` puts (ISO/IEC 9899:1999, 7.19.6.1).

ghost use Rattle.std.specs.Prelude.{◌≡◌, ◌++◌, ◌^◌, ◌<◌, ◌≤◌, drop, length, map, pos, [], unsigned_abs, OnOk};
ghost use Rattle.ec_meaning_defs.specs.functions.Printing.{base_of, digits_of, integer_bytes, in_field, is_capital, part_put, printed, read_as, text_within};
ghost use Rattle.ec_ctypes.specs.Arithmetic.{converted};
ghost use Rattle.ec_memory.specs.Store.{seen};
ghost use Rattle.ec_values.specs.Words.{HasWord, word_view};
ghost use Rattle.ec_stdlib.specs.Does.{Prints, PutsPart};
ghost use Rattle.ec_meaning_defs.specs.functions.Formats.{integer, character, text as text_part};
ghost use Rattle.ec_memory_defs.specs.Memory.{Memory};
ghost use Rattle.ec_printf.specs.formats.Known.{amount_view, field_view, part_view, style_view};

use crate::arguments::{byte_of, take_amount, take_number, take_pointer};
use crate::digits::{MOST_DIGITS, write_digits};
use crate::fields::put_in_field;
use crate::refusal::Refusal;
use ec_base::{Bytes, OutOfMemory, Trap};
use ec_bytes::Ptr;
use ec_ctypes::{Arith, convert};
use ec_memory::Store;
use ec_printf::formats::{Amount, Field, Part, Style};
use ec_values::Word;

/// Puts all that a format puts with these arguments. All of them and all texts are read before.
pub(crate) fn print(
    store: &Store,
    parts: &[Part],
    arguments: &[Word],
    text: &mut Bytes,
) -> Result<(), Refusal>
    requires { text.old ≡ [] }
    ensures { Prints result text.new
        (printed store.now (map part_view parts.now) (map word_view arguments.now)) }
{
    let mut rest = arguments;
    for part in parts {
        rest = put_part(store, part, rest, text)?;
    }
    if rest.is_empty() {
        Ok(())
    } else {
        Err(Refusal::Misfit)
    }
}

/// Puts what a part of a format puts, and answers the arguments behind its own.
fn put_part<'a>(
    store: &Store,
    part: &Part,
    arguments: &'a [Word],
    text: &mut Bytes,
) -> Result<&'a [Word], Refusal>
    ensures { PutsPart result text.old text.new
        (part_put store.now (part_view part.now) (map word_view arguments.now)) }
{
    match part {
        Part::Plain(bytes) => {
            text.extend_from_slice(bytes.as_slice())?;
            Ok(arguments)
        }
        Part::Integer(field, wide, style) => put_integer(*field, *wide, *style, arguments, text),
        Part::Character(field) => put_character(*field, arguments, text),
        Part::Text(field, precision) => put_text(store, *field, *precision, arguments, text),
    }
}

/// `%d`, `%i`, `%u`, `%x`, `%X` and `%o`.
fn put_integer<'a>(
    field: Field,
    wide: bool,
    style: Style,
    arguments: &'a [Word],
    text: &mut Bytes,
) -> Result<&'a [Word], Refusal>
    ensures { (m : Memory) → PutsPart result text.old text.new
        (part_put m (integer (field_view field) wide (style_view style))
        (map word_view arguments.now)) }
{
    match take_amount(field.width, 0, arguments) {
        Some(width) => match take_number(width.rest) {
            Some(value) => {
                put_number(text, field, width.number, wide, style, value.number)?;
                Ok(value.rest)
            }
            None => Err(Refusal::Misfit),
        },
        None => Err(Refusal::Misfit),
    }
}

/// `%c`
fn put_character<'a>(
    field: Field,
    arguments: &'a [Word],
    text: &mut Bytes,
) -> Result<&'a [Word], Refusal>
    ensures { (m : Memory) → PutsPart result text.old text.new
        (part_put m (character (field_view field)) (map word_view arguments.now)) }
{
    match take_amount(field.width, 0, arguments) {
        Some(width) => match take_number(width.rest) {
            Some(value) => {
                let byte = [byte_of(value.number)];
                put_in_field(text, field, false, width.number, &[], &byte)?;
                Ok(value.rest)
            }
            None => Err(Refusal::Misfit),
        },
        None => Err(Refusal::Misfit),
    }
}

/// `%s`
fn put_text<'a>(
    store: &Store,
    field: Field,
    precision: Amount,
    arguments: &'a [Word],
    text: &mut Bytes,
) -> Result<&'a [Word], Refusal>
    ensures { PutsPart result text.old text.new
        (part_put store.now (text_part (field_view field) (amount_view precision))
        (map word_view arguments.now)) }
{
    match take_amount(field.width, 0, arguments) {
        Some(width) => match take_amount(precision, -1, width.rest) {
            Some(most) => match take_pointer(most.rest) {
                Some(at) => match text_within(store, at.ptr, most.number) {
                    Ok(bytes) => {
                        put_in_field(text, field, false, width.number, &[], bytes)?;
                        Ok(at.rest)
                    }
                    Err(trap) => Err(Refusal::Trap(trap)),
                },
                None => Err(Refusal::Misfit),
            },
            None => Err(Refusal::Misfit),
        },
        None => Err(Refusal::Misfit),
    }
}

/// A text, or its front: a negative precision is none.
fn text_within(store: &Store, ptr: Ptr, precision: i128) -> Result<&[u8], Trap>
    requires { HasWord precision }
    ensures { seen (λ bytes. bytes.now) result ≡ text_within store.now ptr.0 precision }
{
    if precision < 0 {
        store.text(ptr)
    } else {
        store.text_up_to(ptr, precision as u64)
    }
}

/// Puts a number in its field, read as the type of its directive.
fn put_number(
    text: &mut Bytes,
    field: Field,
    width: i128,
    wide: bool,
    style: Style,
    number: i128,
) -> Result<(), OutOfMemory>
    requires width { HasWord width }
    requires number { HasWord number }
    ensures { OnOk result (text.new ≡ text.old ++ integer_bytes (field_view field) width
        (style_view style) (converted (read_as wide (style_view style)) number)) }
{
    put_signed(text, field, width, style, converted_as(wide, style, number))
}

/// Puts a number in its field.
fn put_signed(
    text: &mut Bytes,
    field: Field,
    width: i128,
    style: Style,
    number: i128,
) -> Result<(), OutOfMemory>
    requires width { HasWord width }
    requires number { HasWord number }
    ensures { OnOk result (text.new
        ≡ text.old ++ integer_bytes (field_view field) width (style_view style) number) }
{
    let amount = number.unsigned_abs() as u64;
    if number < 0 {
        put_digits(text, field, width, b"-", style, amount)
    } else {
        put_digits(text, field, width, &[], style, amount)
    }
}

/// Puts the digits of a number in its field, behind its sign.
fn put_digits(
    text: &mut Bytes,
    field: Field,
    width: i128,
    sign: &[u8],
    style: Style,
    amount: u64,
) -> Result<(), OutOfMemory>
    requires { HasWord width }
    ensures { OnOk result (text.new
        ≡ text.old ++ in_field (field_view field) field.zeros width sign.now
        (digits_of (base_of (style_view style)) (is_capital (style_view style)) amount)) }
{
    let mut buffer = [0; MOST_DIGITS];
    let at = write_digits(&mut buffer, base(style), is_capital(style), amount);
    put_in_field(text, field, field.zeros, width, sign, tail(&buffer, at))
}

/// What stands from a place on.
fn tail(bytes: &[u8], at: usize) -> &[u8]
    requires { at ≤ length bytes.now }
    ensures { result.now ≡ drop at bytes.now }
{
    &bytes[at..]
}

/// The argument as the type that its directive reads.
fn converted_as(wide: bool, style: Style, number: i128) -> i128
    ensures value { result ≡ converted (read_as wide (style_view style)) number }
    ensures bounds { HasWord result }
{
    match style {
        Style::SignedDecimal => convert(if wide { Arith::Long } else { Arith::Int }, number),
        _ => convert(if wide { Arith::ULong } else { Arith::UInt }, number),
    }
}

/// The base of a style.
fn base(style: Style) -> u64
    ensures value { result ≡ base_of (style_view style) }
    ensures some { 2 ≤ result }
    ensures few { result ≤ 16 }
{
    match style {
        Style::SignedDecimal => 10,
        Style::UnsignedDecimal => 10,
        Style::Hexadecimal => 16,
        Style::CapitalHexadecimal => 16,
        Style::Octal => 8,
    }
}

/// Whether a style has capital letters.
fn is_capital(style: Style) -> bool
    ensures { result ≡ is_capital (style_view style) }
{
    match style {
        Style::CapitalHexadecimal => true,
        Style::SignedDecimal => false,
        Style::UnsignedDecimal => false,
        Style::Hexadecimal => false,
        Style::Octal => false,
    }
}
