//! Formats, as the words of a row write them.

use crate::answers::Wrong;
use ec_base::List;
use ec_printf::formats::{Amount, Field, Part, Style};
use std::alloc::Global;

// What is known of a directive so far.
#[derive(Clone, Copy)]
struct Begun {
    minus: bool,
    zeros: bool,
    width: Amount,
    dot: bool,
    precision: Amount,
    wide: bool,
}

/// The part that a word stands for: a directive where it begins with `%`, and else its bytes.
pub fn part_of(alloc: Global, word: &str) -> Result<Part, Wrong> {
    if word.starts_with('%') {
        directive_of(word)
    } else {
        Ok(Part::Plain(List::from_slice(alloc, word.as_bytes())?))
    }
}

fn directive_of(word: &str) -> Result<Part, Wrong> {
    let mut begun = Begun {
        minus: false,
        zeros: false,
        width: Amount::Absent,
        dot: false,
        precision: Amount::Absent,
        wide: false,
    };
    for byte in word.as_bytes() {
        match *byte {
            b'%' => {}
            b'-' => begun.minus = true,
            b'l' => begun.wide = true,
            b'.' => begun.dot = true,
            b'*' => begun = with_amount(begun, Amount::FromArgument),
            b'0'..=b'9' => begun = with_digit(begun, *byte),
            letter => return ended(begun, letter),
        }
    }
    Err(Wrong::Form)
}

fn with_amount(begun: Begun, amount: Amount) -> Begun {
    if begun.dot {
        Begun {
            precision: amount,
            ..begun
        }
    } else {
        Begun {
            width: amount,
            ..begun
        }
    }
}

fn with_digit(begun: Begun, digit: u8) -> Begun {
    if !begun.dot && begun.width == Amount::Absent && digit == b'0' {
        return Begun {
            zeros: true,
            ..begun
        };
    }
    let before = if begun.dot {
        begun.precision
    } else {
        begun.width
    };
    let value = u64::from(digit.saturating_sub(b'0'));
    let amount = match before {
        Amount::Given(number) => number.saturating_mul(10).saturating_add(value),
        Amount::Absent | Amount::FromArgument => value,
    };
    with_amount(begun, Amount::Given(amount))
}

fn ended(begun: Begun, letter: u8) -> Result<Part, Wrong> {
    let field = Field {
        minus: begun.minus,
        zeros: begun.zeros,
        width: begun.width,
    };
    match letter {
        b'd' | b'i' => Ok(Part::Integer(field, begun.wide, Style::SignedDecimal)),
        b'u' => Ok(Part::Integer(field, begun.wide, Style::UnsignedDecimal)),
        b'x' => Ok(Part::Integer(field, begun.wide, Style::Hexadecimal)),
        b'X' => Ok(Part::Integer(field, begun.wide, Style::CapitalHexadecimal)),
        b'o' => Ok(Part::Integer(field, begun.wide, Style::Octal)),
        b'c' => Ok(Part::Character(field)),
        b's' => Ok(Part::Text(field, begun.precision)),
        _ => Err(Wrong::Form),
    }
}
