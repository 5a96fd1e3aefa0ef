//! Bytes in fields of a width.

ghost use Rattle.std.specs.Prelude.{◌≡◌, ◌++◌, replicate, OnOk};
ghost use Rattle.ec_meaning_defs.specs.functions.Printing.{in_field, padded};
ghost use Rattle.ec_values.specs.Words.{HasWord};
ghost use Rattle.ec_printf.specs.formats.Known.{field_view};

use ec_base::{Bytes, OutOfMemory};
use ec_printf::formats::Field;

/// Puts bytes in a field of a width that is known. A negative width is the flag `-` and the width's amount.
pub(crate) fn put_in_field(
    text: &mut Bytes,
    field: Field,
    zeros: bool,
    width: i128,
    sign: &[u8],
    body: &[u8],
) -> Result<(), OutOfMemory>
    requires { HasWord width }
    ensures { OnOk result (text.new
        ≡ text.old ++ in_field (field_view field) zeros width sign.now body.now) }
{
    let amount = width.unsigned_abs() as u64;
    put_padded(text, field.minus || width < 0, zeros, amount, sign, body)
}

/// Puts bytes with blanks behind them, or zeros behind their sign, or blanks before them.
fn put_padded(
    text: &mut Bytes,
    minus: bool,
    zeros: bool,
    width: u64,
    sign: &[u8],
    body: &[u8],
) -> Result<(), OutOfMemory>
    ensures { OnOk result (text.new ≡ text.old ++ padded minus zeros width sign.now body.now) }
{
    let rest = width.saturating_sub(sign.len() as u64 + body.len() as u64);
    if minus {
        text.extend_from_slice(sign)?;
        text.extend_from_slice(body)?;
        repeat(text, rest, b' ')
    } else if zeros {
        text.extend_from_slice(sign)?;
        repeat(text, rest, b'0')?;
        text.extend_from_slice(body)
    } else {
        repeat(text, rest, b' ')?;
        text.extend_from_slice(sign)?;
        text.extend_from_slice(body)
    }
}

/// Puts a byte so many times.
fn repeat(text: &mut Bytes, count: u64, byte: u8) -> Result<(), OutOfMemory>
    ensures { OnOk result (text.new ≡ text.old ++ replicate count byte) }
{
    for _i in 0..count {
        text.push(byte)?;
    }
    Ok(())
}
