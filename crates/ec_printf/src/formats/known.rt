//! The known functions, and formats that are taken apart.

use ec_base::{Bytes, List};

/// One of the outputs.
#[derive(Clone, Copy, Debug, PartialEq, Eq)]
pub enum Channel {
    StandardOutput,
    StandardError,
}

/// A width or a precision.
#[derive(Clone, Copy, Debug, PartialEq, Eq)]
pub enum Amount {
    Absent,
    Given(u64),
    /// `*`
    FromArgument,
}

/// How a number is written.
#[derive(Clone, Copy, Debug, PartialEq, Eq)]
pub enum Style {
    /// `d` and `i`
    SignedDecimal,
    /// `u`
    UnsignedDecimal,
    /// `x`
    Hexadecimal,
    /// `X`
    CapitalHexadecimal,
    /// `o`
    Octal,
}

/// The flags `-` and `0`, and the width.
#[derive(Clone, Copy, Debug, PartialEq, Eq)]
pub struct Field {
    pub minus: bool,
    pub zeros: bool,
    pub width: Amount,
}

/// A part of a format (ISO/IEC 9899:1999, 7.19.6.1).
#[derive(Debug, Drop)]
pub enum Part {
    /// Bytes that stand for themselves.
    Plain(Bytes),
    /// An integer: whether it has `l` or `ll`, and how it is written.
    Integer(Field, bool, Style),
    Character(Field),
    /// A text, with its precision.
    Text(Field, Amount),
}

/// A function that a program may call without defining it (ISO/IEC 9899:1999, 7.19 to 7.21; PostgreSQL manual, 36.8.1).
#[derive(Debug, Drop)]
pub enum Known {
    /// `printf` and `fprintf`, with the format taken apart.
    Print(Channel, List<Part>),
    Puts,
    Putchar,
    Strlen,
    Strcmp,
    Strncmp,
    Memcmp,
    Strcpy,
    Strncpy,
    Strcat,
    Memcpy,
    Memset,
    Exit,
    Sqlprint,
}
