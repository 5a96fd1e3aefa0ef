//! The digits of a number.

ghost use Rattle.std.specs.Prelude.{◌≡◌, ◌≤◌, ◌<◌, ◌++◌, [], drop, length, replicate, OnOk};
ghost use Rattle.ec_meaning_defs.specs.functions.Printing.{digit_byte, digits_of};

/// How many digits a number of 64 bits may have, to the least base.
pub(crate) const MOST_DIGITS: usize = 22;

/// Writes the digits of a number at the end of `buffer`, and answers where they begin.
pub(crate) fn write_digits(buffer: &mut [u8], base: u64, capital: bool, number: u64) -> usize
    requires room { length buffer.old ≡ 22 }
    requires some { 2 ≤ base }
    requires few { base ≤ 16 }
    ensures digits { drop result buffer.new ≡ digits_of base capital number }
    ensures bound { result ≤ 22 }
{
    let mut at = MOST_DIGITS;
    let mut left = number;
    while at > 0 {
        at -= 1;
        buffer[at] = digit_byte(capital, (left % base) as u8);
        left /= base;
        if left == 0 {
            return at;
        }
    }
    at
}

/// The byte of a digit.
fn digit_byte(capital: bool, digit: u8) -> u8
    requires { digit < 16 }
    ensures { result ≡ digit_byte capital digit }
{
    if digit < 10 {
        48 + digit
    } else if capital {
        55 + digit
    } else {
        87 + digit
    }
}
