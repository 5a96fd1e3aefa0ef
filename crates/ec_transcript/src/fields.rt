//! The fields of a line, as they are written.
ghost use Rattle.std.specs.Prelude.{◌≡◌, ◌++◌, ◌∷◌, [], ◌<◌, ◌^◌, OnOk};
ghost use Rattle.std.specs.Fmt.{decimal, signed_decimal};
ghost use Rattle.std.specs.List.{flat_map};
ghost use Rattle.ec_transcript.specs.Text.{is_plain, hex, letter, quoted, optional, fields, numeral};

use ec_base::{Bytes, List, OutOfMemory};
use itoa::Buffer;

/// Whether a byte stands for itself.
pub fn is_plain(byte: u8) -> bool
    ensures { result ≡ is_plain byte }
{
    32 <= byte && byte <= 126 && byte != b'"' && byte != b'\\'
}

// A hexadecimal digit.
fn hex(digit: u8) -> u8
    requires { digit < 16 }
    ensures { result ≡ hex digit }
{
    if digit < 10 { 48 + digit } else { 87 + digit }
}

// Puts a byte of a text.
fn push_letter(out: &mut Bytes, byte: u8) -> Result<(), OutOfMemory>
    ensures { OnOk result (out.new ≡ out.old ++ letter byte) }
{
    if is_plain(byte) {
        return out.push(byte);
    }
    out.push(b'\\')?;
    out.push(hex(byte / 16))?;
    out.push(hex(byte % 16))
}

/// Puts a text in quotes.
pub fn push_quoted(out: &mut Bytes, text: &[u8]) -> Result<(), OutOfMemory>
    ensures { OnOk result (out.new ≡ out.old ++ quoted text.now) }
{
    out.push(b'"')?;
    for byte in text {
        push_letter(out, *byte)?;
    }
    out.push(b'"')
}

/// Puts a text that may be missing.
pub fn push_optional(out: &mut Bytes, text: &Option<Bytes>) -> Result<(), OutOfMemory>
    ensures { OnOk result (out.new ≡ out.old ++ optional text.now) }
{
    match text {
        Some(text) => push_quoted(out, text.as_slice()),
        None => out.push(b'-'),
    }
}

/// Puts fields, each with a blank before it.
pub fn push_fields(out: &mut Bytes, all: &List<Option<Bytes>>) -> Result<(), OutOfMemory>
    ensures { OnOk result (out.new ≡ out.old ++ fields all.now) }
{
    for field in all.as_slice() {
        out.push(b' ')?;
        push_optional(out, field)?;
    }
    Ok(())
}

/// Puts a number.
pub fn push_number(out: &mut Bytes, number: u64) -> Result<(), OutOfMemory>
    ensures { OnOk result (out.new ≡ out.old ++ decimal number) }
{
    let mut buffer = Buffer::new();
    out.extend_from_slice(buffer.format(number).as_bytes())
}

/// Puts how many there are of something.
pub fn push_count(out: &mut Bytes, count: usize) -> Result<(), OutOfMemory>
    ensures { OnOk result (out.new ≡ out.old ++ numeral count) }
{
    push_number(out, count as u64)
}

/// Puts a number that may be below 0.
pub fn push_code(out: &mut Bytes, code: i32) -> Result<(), OutOfMemory>
    ensures { OnOk result (out.new ≡ out.old ++ signed_decimal code) }
{
    let mut buffer = Buffer::new();
    out.extend_from_slice(buffer.format(code).as_bytes())
}
