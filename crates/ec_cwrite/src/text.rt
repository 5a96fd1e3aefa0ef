//! Tokens and what parts them, put at the end of a text.

ghost use Rattle.std.specs.Prelude.{◌≡◌, ◌++◌, [], ◌∷◌, ◌<◌, OnOk};
ghost use Rattle.std.specs.Fmt.{decimal};
ghost use Rattle.ec_ctypes.specs.trees.Tokens.{integer_token, character_token, string_token, include_token};
ghost use Rattle.ec_ctypes.specs.views.Types.{ty_view};
ghost use Rattle.ec_writing_defs.specs.Chunks.{the, blank, line_end, line_mark, suffix, quoted_byte, quoted, byte_of};
ghost use Rattle.ec_writing_defs.specs.Expressions.{mark, word};
ghost use Rattle.ec_cwrite.specs.Writes.{Writes};

use ec_base::{Bytes, Line, OutOfMemory};
use ec_ctypes::{Punct, Ty};
use itoa::Buffer;

/// A mark.
pub fn push_mark(out: &mut Bytes, punct: Punct) -> Result<(), OutOfMemory>
    ensures { OnOk result (Writes out.old out.new (mark punct ∷ [])) }
{
    out.extend_from_slice(punct.text().as_bytes())
}

/// A word.
pub fn push_word(out: &mut Bytes, text: &[u8]) -> Result<(), OutOfMemory>
    ensures { OnOk result (Writes out.old out.new (word text.now ∷ [])) }
{
    out.extend_from_slice(text)
}

/// The bytes of an `#include` line.
pub fn push_include(out: &mut Bytes, bytes: &[u8]) -> Result<(), OutOfMemory>
    ensures { OnOk result (Writes out.old out.new (the (include_token bytes.now) ∷ [])) }
{
    out.extend_from_slice(bytes)
}

/// A blank.
pub fn push_blank(out: &mut Bytes) -> Result<(), OutOfMemory>
    ensures { OnOk result (Writes out.old out.new (blank ∷ [])) }
{
    out.push(b' ')
}

/// The end of a line.
pub fn push_line_end(out: &mut Bytes) -> Result<(), OutOfMemory>
    ensures { OnOk result (Writes out.old out.new (line_end ∷ [])) }
{
    out.push(b'\n')
}

/// A line `#line N` (ISO/IEC 9899:1999, 6.10.4).
pub fn push_line(out: &mut Bytes, line: Line) -> Result<(), OutOfMemory>
    ensures { OnOk result (Writes out.old out.new (line_mark line.0 ∷ [])) }
{
    out.extend_from_slice(b"#line ")?;
    let mut buffer = Buffer::new();
    out.extend_from_slice(buffer.format(line.0).as_bytes())?;
    out.push(b'\n')
}

/// The suffix of a type.
fn suffix_of(ty: &Ty) -> &'static [u8]
    ensures { result.now ≡ suffix (ty_view ty.now) }
{
    match ty {
        Ty::UInt => b"U",
        Ty::Long => b"L",
        Ty::ULong => b"UL",
        Ty::LLong => b"LL",
        Ty::ULLong => b"ULL",
        _ => b"",
    }
}

/// An integer constant.
pub fn push_integer(out: &mut Bytes, n: u64, ty: &Ty) -> Result<(), OutOfMemory>
    ensures { OnOk result (Writes out.old out.new (the (integer_token n (ty_view ty.now)) ∷ [])) }
{
    let mut buffer = Buffer::new();
    out.extend_from_slice(buffer.format(n).as_bytes())?;
    out.extend_from_slice(suffix_of(ty))
}

/// A byte between quotes: itself, or a backslash and three octal digits.
fn push_byte(out: &mut Bytes, quote: u8, byte: u8) -> Result<(), OutOfMemory>
    ensures { OnOk result (out.new ≡ out.old ++ quoted_byte quote byte) }
{
    if byte == quote || byte == b'\\' || byte < 32 || byte > 126 {
        out.push(b'\\')?;
        out.push(b'0' + byte / 64)?;
        out.push(b'0' + byte / 8 % 8)?;
        out.push(b'0' + byte % 8)
    } else {
        out.push(byte)
    }
}

/// Bytes between quotes.
fn push_quoted(out: &mut Bytes, quote: u8, bytes: &[u8]) -> Result<(), OutOfMemory>
    ensures { OnOk result (out.new ≡ out.old ++ quoted quote bytes.now) }
{
    out.push(quote)?;
    for byte in bytes {
        push_byte(out, quote, *byte)?;
    }
    out.push(quote)
}

/// A string.
pub fn push_string(out: &mut Bytes, bytes: &[u8]) -> Result<(), OutOfMemory>
    ensures { OnOk result (Writes out.old out.new (the (string_token bytes.now) ∷ [])) }
{
    push_quoted(out, b'"', bytes)
}

/// The byte of a character.
fn byte_of_character(value: i8) -> u8
    ensures { result ≡ byte_of value }
{
    if value < 0 {
        (i16::from(value) + 256) as u8
    } else {
        value as u8
    }
}

/// A character constant.
pub fn push_character(out: &mut Bytes, value: i8) -> Result<(), OutOfMemory>
    ensures { OnOk result (Writes out.old out.new (the (character_token value) ∷ [])) }
{
    push_quoted(out, b'\'', &[byte_of_character(value)])
}
