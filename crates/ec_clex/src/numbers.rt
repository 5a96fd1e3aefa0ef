//! Integer constants (ISO/IEC 9899:1999, 6.4.4.1).
ghost use Rattle.std.specs.Prelude.{◌≡◌, ◌+◌, ◌*◌, ◌^◌, ◌≤◌, ℕ, ◌∷◌, [], codes, length, drop, option_map, MatchOption};
ghost use Rattle.ec_language.specs.Letters.{is_among};
ghost use Rattle.ec_language.specs.Constants as constants;
ghost use Rattle.ec_clex.specs.Numbers.{suffix_view, plain_choices, long_choices, long_long_choices};

use ec_ctypes::Arith;
use ec_split::scanning::bytes::{begins_two, byte_at, is_digit};

/// What the letters behind the digits of a constant say.
#[derive(Clone, Copy)]
pub struct Suffix {
    /// Whether it is unsigned.
    pub unsigned: bool,
    /// How often it is long: not, once or twice.
    pub longs: u8,
}

/// The digit that a byte is: letters in either case go on behind 9.
pub fn digit_value(byte: u8) -> u8
    ensures { result ≡ constants.digit_value byte }
{
    if is_digit(byte) {
        byte - 48
    } else if 65 <= byte && byte <= 90 {
        byte - 55
    } else {
        byte.saturating_sub(87)
    }
}

/// Whether the byte is a digit of the base.
pub fn is_digit_of(base: u8, byte: u8) -> bool
    ensures { result ≡ constants.is_digit_of base byte }
{
    (is_digit(byte) || (65 <= byte && byte <= 90) || (97 <= byte && byte <= 122))
        && digit_value(byte) < base
}

/// The index behind the digits of the base, at most so many, that stand from the index on.
pub fn digits_end(base: u8, most: usize, text: &[u8], from: usize) -> usize
    requires { from ≤ length text.now }
    ensures is { result ≡ from + length (constants.leading_digits base most (drop from text.now)) }
    ensures within { result ≤ length text.now }
{
    let mut at = from;
    while at < text.len() {
        if at - from == most {
            return at;
        }
        if !is_digit_of(base, text[at]) {
            return at;
        }
        at += 1;
    }
    at
}

/// The number behind which a digit stands, with it, if it has no more than 64 bits.
fn with_digit(number: u64, base: u8, digit: u8) -> Option<u64>
    ensures { MatchOption result (2 ^ 64 ≤ number * base + digit) (λ more. more
        ≡ number * base + digit) }
{
    match number.checked_mul(u64::from(base)) {
        Some(product) => product.checked_add(u64::from(digit)),
        None => None,
    }
}

/// The number that the digits stand for, if it has no more than 64 bits.
pub fn digits_value(base: u8, digits: &[u8]) -> Option<u64>
    requires { 1 ≤ base }
    ensures { MatchOption result (2 ^ 64 ≤ constants.digits_value base digits.now)
        (λ number. number ≡ constants.digits_value base digits.now) }
{
    let mut number = 0u64;
    for byte in digits {
        match with_digit(number, base, digit_value(*byte)) {
            Some(more) => number = more,
            None => return None,
        }
    }
    Some(number)
}

fn is_unsigned_suffix(text: &[u8]) -> bool
    ensures { result ≡ is_among (codes "u" ∷ codes "U" ∷ []) text.now }
{
    text == b"u".as_slice() || text == b"U".as_slice()
}

fn is_long_suffix(text: &[u8]) -> bool
    ensures { result ≡ is_among (codes "l" ∷ codes "L" ∷ []) text.now }
{
    text == b"l".as_slice() || text == b"L".as_slice()
}

fn is_long_long_suffix(text: &[u8]) -> bool
    ensures { result ≡ is_among (codes "ll" ∷ codes "LL" ∷ []) text.now }
{
    text == b"ll".as_slice() || text == b"LL".as_slice()
}

fn is_unsigned_then_long(text: &[u8]) -> bool
    ensures { result ≡ is_among (codes "ul" ∷ codes "uL" ∷ codes "Ul" ∷ codes "UL" ∷ []) text.now }
{
    text == b"ul".as_slice()
        || text == b"uL".as_slice()
        || text == b"Ul".as_slice()
        || text == b"UL".as_slice()
}

fn is_long_then_unsigned(text: &[u8]) -> bool
    ensures { result ≡ is_among (codes "lu" ∷ codes "lU" ∷ codes "Lu" ∷ codes "LU" ∷ []) text.now }
{
    text == b"lu".as_slice()
        || text == b"lU".as_slice()
        || text == b"Lu".as_slice()
        || text == b"LU".as_slice()
}

fn is_unsigned_long_suffix(text: &[u8]) -> bool
    ensures { result ≡ is_among (codes "ul" ∷ codes "uL" ∷ codes "Ul" ∷ codes "UL"
        ∷ codes "lu" ∷ codes "lU" ∷ codes "Lu" ∷ codes "LU" ∷ []) text.now }
{
    is_unsigned_then_long(text) || is_long_then_unsigned(text)
}

fn is_unsigned_then_long_long(text: &[u8]) -> bool
    ensures { result ≡ is_among (codes "ull" ∷ codes "uLL" ∷ codes "Ull"
        ∷ codes "ULL" ∷ []) text.now }
{
    text == b"ull".as_slice()
        || text == b"uLL".as_slice()
        || text == b"Ull".as_slice()
        || text == b"ULL".as_slice()
}

fn is_long_long_then_unsigned(text: &[u8]) -> bool
    ensures { result ≡ is_among (codes "llu" ∷ codes "llU" ∷ codes "LLu"
        ∷ codes "LLU" ∷ []) text.now }
{
    text == b"llu".as_slice()
        || text == b"llU".as_slice()
        || text == b"LLu".as_slice()
        || text == b"LLU".as_slice()
}

fn is_unsigned_long_long_suffix(text: &[u8]) -> bool
    ensures { result ≡ is_among (codes "ull" ∷ codes "uLL" ∷ codes "Ull" ∷ codes "ULL"
        ∷ codes "llu" ∷ codes "llU" ∷ codes "LLu" ∷ codes "LLU" ∷ []) text.now }
{
    is_unsigned_then_long_long(text) || is_long_long_then_unsigned(text)
}

/// What a suffix says, if it is one.
pub fn suffix_of(text: &[u8]) -> Option<Suffix>
    ensures { option_map suffix_view result ≡ constants.suffix_of text.now }
{
    if text.is_empty() {
        Some(Suffix {
            unsigned: false,
            longs: 0,
        })
    } else if is_unsigned_suffix(text) {
        Some(Suffix {
            unsigned: true,
            longs: 0,
        })
    } else if is_long_suffix(text) {
        Some(Suffix {
            unsigned: false,
            longs: 1,
        })
    } else if is_long_long_suffix(text) {
        Some(Suffix {
            unsigned: false,
            longs: 2,
        })
    } else if is_unsigned_long_suffix(text) {
        Some(Suffix {
            unsigned: true,
            longs: 1,
        })
    } else if is_unsigned_long_long_suffix(text) {
        Some(Suffix {
            unsigned: true,
            longs: 2,
        })
    } else {
        None
    }
}

/// The type of a number without a suffix.
fn plain_type(number: u64, decimal: bool) -> Option<Arith>
    ensures { result ≡ constants.first_fit number (plain_choices decimal) }
{
    if number <= 0x7fff_ffff {
        Some(Arith::Int)
    } else if !decimal && number <= 0xffff_ffff {
        Some(Arith::UInt)
    } else if number <= 0x7fff_ffff_ffff_ffff {
        Some(Arith::Long)
    } else if decimal {
        None
    } else {
        Some(Arith::ULong)
    }
}

/// The type of a number that is `long`.
fn long_type(number: u64, decimal: bool) -> Option<Arith>
    ensures { result ≡ constants.first_fit number (long_choices decimal) }
{
    if number <= 0x7fff_ffff_ffff_ffff {
        Some(Arith::Long)
    } else if decimal {
        None
    } else {
        Some(Arith::ULong)
    }
}

/// The type of a number that is `long long`.
fn long_long_type(number: u64, decimal: bool) -> Option<Arith>
    ensures { result ≡ constants.first_fit number (long_long_choices decimal) }
{
    if number <= 0x7fff_ffff_ffff_ffff {
        Some(Arith::LLong)
    } else if decimal {
        None
    } else {
        Some(Arith::ULLong)
    }
}

/// The type of a number with a suffix: the first choice that has it.
pub fn type_of(number: u64, decimal: bool, suffix: Suffix) -> Option<Arith>
    ensures { result ≡ constants.first_fit number (constants.choices decimal (suffix_view suffix)) }
{
    if suffix.longs == 0 {
        if !suffix.unsigned {
            plain_type(number, decimal)
        } else if number <= 0xffff_ffff {
            Some(Arith::UInt)
        } else {
            Some(Arith::ULong)
        }
    } else if suffix.longs == 1 {
        if suffix.unsigned {
            Some(Arith::ULong)
        } else {
            long_type(number, decimal)
        }
    } else if suffix.unsigned {
        Some(Arith::ULLong)
    } else {
        long_long_type(number, decimal)
    }
}

/// The value and the type of digits of a base, with a suffix, from the index on.
pub fn based(base: u8, decimal: bool, text: &[u8], from: usize) -> Option<(u64, Arith)>
    requires based { 1 ≤ base }
    requires inside { from ≤ length text.now }
    ensures { result ≡ constants.based base decimal (drop from text.now) }
{
    let end = digits_end(base, text.len() - from, text, from);
    if end == from {
        return None;
    }
    let suffix = match suffix_of(&text[end..]) {
        Some(suffix) => suffix,
        None => return None,
    };
    let number = match digits_value(base, &text[from..end]) {
        Some(number) => number,
        None => return None,
    };
    match type_of(number, decimal, suffix) {
        Some(kind) => Some((number, kind)),
        None => None,
    }
}

/// The value and the type of an integer constant.
pub fn integer_constant(text: &[u8]) -> Option<(u64, Arith)>
    ensures { result ≡ constants.integer_constant text.now }
{
    if begins_two(text, 0, b'0', b'x') || begins_two(text, 0, b'0', b'X') {
        based(16, false, text, 2)
    } else if byte_at(text, 0, b'0') {
        based(8, false, text, 0)
    } else {
        based(10, true, text, 0)
    }
}
