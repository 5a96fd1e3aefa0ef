//! The conversions of a format (ISO/IEC 9899:1999, 7.19.6.1, 3 to 8), in the subset that is taken.

ghost use Rattle.std.specs.Prelude.{◌≡◌, length, option_map};
ghost use Rattle.std.specs.Option.{option_copied};
ghost use Rattle.ec_typing_defs.specs.Formats as spec;
ghost use Rattle.ec_known_calls.specs.Conversions.{need_view, front_view, letter_view, precise_view, conversion_view};

/// What an argument of a format has to be.
#[derive(Clone, Copy)]
pub enum Need {
    /// Promoted, it is an int.
    ExactInt,
    /// Promoted, it is an int, signed or not.
    ShortInteger,
    /// It is a long or a long long, signed or not.
    LongInteger,
    /// It points to char or unsigned char.
    Text,
}

/// A width or a precision: whether it is an argument, and what stands behind it.
#[derive(Clone, Copy)]
pub struct Front<'a> {
    pub starred: bool,
    pub rest: &'a [u8],
}

/// What a conversion converts, and what stands behind it.
#[derive(Clone, Copy)]
pub struct Letter<'a> {
    pub need: Need,
    pub rest: &'a [u8],
}

/// A letter, and whether the precision before it is an argument.
#[derive(Clone, Copy)]
pub struct Precise<'a> {
    pub precision: bool,
    pub need: Need,
    pub rest: &'a [u8],
}

/// A conversion: whether its width and its precision are arguments, what it converts if it does, and what stands behind
/// it.
#[derive(Clone, Copy)]
pub struct Conversion<'a> {
    pub width: bool,
    pub precision: bool,
    pub need: Option<Need>,
    pub rest: &'a [u8],
}

fn is_digit(byte: u8) -> bool
    ensures { result ≡ spec.is_digit byte }
{
    48 <= byte && byte <= 57
}

fn is_flag(byte: u8) -> bool
    ensures { result ≡ spec.is_flag byte }
{
    byte == 45 || byte == 48
}

fn is_integer_letter(byte: u8) -> bool
    ensures { result ≡ spec.is_integer_letter byte }
{
    byte == b'd' || byte == b'i' || byte == b'u' || byte == b'x' || byte == b'X' || byte == b'o'
}

// What stands behind this byte, if it comes first.
fn behind(mark: u8, text: &[u8]) -> Option<&[u8]>
    ensures { option_copied result ≡ spec.behind mark text.now }
{
    match text {
        [first, rest @ ..] if *first == mark => Some(rest),
        _ => None,
    }
}

fn behind_flags(text: &[u8]) -> &[u8]
    ensures { result.now ≡ spec.behind_by spec.is_flag text.now }
{
    let mut rest = text;
    while let [first, more @ ..] = rest {
        if !is_flag(*first) {
            return rest;
        }
        rest = more;
    }
    rest
}

fn behind_digits(text: &[u8]) -> &[u8]
    ensures { result.now ≡ spec.behind_by spec.is_digit text.now }
{
    let mut rest = text;
    while let [first, more @ ..] = rest {
        if !is_digit(*first) {
            return rest;
        }
        rest = more;
    }
    rest
}

// How many digits come first.
fn digits(text: &[u8]) -> usize
    ensures { result ≡ length (spec.front_by spec.is_digit text.now) }
{
    let mut count = 0;
    for byte in text {
        if !is_digit(*byte) {
            return count;
        }
        count += 1;
    }
    count
}

// The width: none, `*`, or at most three digits.
fn width(text: &[u8]) -> Option<Front<'_>>
    ensures { option_map front_view result ≡ spec.width_part text.now }
{
    match behind(b'*', text) {
        Some(rest) => Some(Front {
            starred: true,
            rest,
        }),
        None => {
            if digits(text) <= 3 {
                Some(Front {
                    starred: false,
                    rest: behind_digits(text),
                })
            } else {
                None
            }
        }
    }
}

// Behind the point of a precision: `*`, or one digit or more.
fn precision(text: &[u8]) -> Option<Front<'_>>
    ensures { option_map front_view result ≡ spec.precision_part text.now }
{
    match behind(b'*', text) {
        Some(rest) => Some(Front {
            starred: true,
            rest,
        }),
        None => {
            if 1 <= digits(text) {
                Some(Front {
                    starred: false,
                    rest: behind_digits(text),
                })
            } else {
                None
            }
        }
    }
}

fn integer(need: Need, text: &[u8]) -> Option<Letter<'_>>
    ensures { option_map letter_view result ≡ spec.integer_part (need_view need) text.now }
{
    match text {
        [first, rest @ ..] if is_integer_letter(*first) => Some(Letter { need, rest }),
        _ => None,
    }
}

// `s`
fn text_letter(text: &[u8]) -> Option<Letter<'_>>
    ensures { option_map letter_view result ≡ spec.text_part text.now }
{
    match behind(b's', text) {
        Some(rest) => Some(Letter {
            need: Need::Text,
            rest,
        }),
        None => None,
    }
}

// `c`, `s` or a letter of an integer.
fn plain_letter(text: &[u8]) -> Option<Letter<'_>>
    ensures { option_map letter_view result ≡ spec.plain_letter text.now }
{
    match behind(b'c', text) {
        Some(rest) => Some(Letter {
            need: Need::ExactInt,
            rest,
        }),
        None => match text_letter(text) {
            Some(found) => Some(found),
            None => integer(Need::ShortInteger, text),
        },
    }
}

// Behind an `l`: perhaps another one, and a letter of an integer.
fn long_letter(text: &[u8]) -> Option<Letter<'_>>
    ensures { option_map letter_view result ≡ spec.long_letter text.now }
{
    match behind(b'l', text) {
        Some(rest) => integer(Need::LongInteger, rest),
        None => integer(Need::LongInteger, text),
    }
}

fn read_letter(text: &[u8]) -> Option<Letter<'_>>
    ensures { option_map letter_view result ≡ spec.letter_part text.now }
{
    match behind(b'l', text) {
        Some(rest) => long_letter(rest),
        None => plain_letter(text),
    }
}

// A precision, which stands before `s` alone.
fn read_precise(text: &[u8]) -> Option<Precise<'_>>
    ensures { option_map precise_view result ≡ spec.precise_part text.now }
{
    match precision(text) {
        Some(front) => match text_letter(front.rest) {
            Some(found) => Some(Precise {
                precision: front.starred,
                need: found.need,
                rest: found.rest,
            }),
            None => None,
        },
        None => None,
    }
}

fn behind_width(text: &[u8]) -> Option<Precise<'_>>
    ensures { option_map precise_view result ≡ spec.behind_width text.now }
{
    match behind(b'.', text) {
        Some(rest) => read_precise(rest),
        None => match read_letter(text) {
            Some(found) => Some(Precise {
                precision: false,
                need: found.need,
                rest: found.rest,
            }),
            None => None,
        },
    }
}

// Flags, a width, a precision and a letter.
fn full_conversion(text: &[u8]) -> Option<Conversion<'_>>
    ensures { option_map conversion_view result ≡ spec.full_conversion text.now }
{
    match width(behind_flags(text)) {
        Some(front) => match behind_width(front.rest) {
            Some(found) => Some(Conversion {
                width: front.starred,
                precision: found.precision,
                need: Some(found.need),
                rest: found.rest,
            }),
            None => None,
        },
        None => None,
    }
}

/// The conversion that stands behind a `%`.
pub fn read_conversion(text: &[u8]) -> Option<Conversion<'_>>
    ensures { option_map conversion_view result ≡ spec.conversion text.now }
{
    match behind(b'%', text) {
        Some(rest) => Some(Conversion {
            width: false,
            precision: false,
            need: None,
            rest,
        }),
        None => full_conversion(text),
    }
}
